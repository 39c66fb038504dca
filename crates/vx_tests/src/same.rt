use std::fmt::Debug;
use std::process::Abort;

/// Ends the test where the two differ, and shows both. In one function, since each `assert_eq!`
/// writes out how its values are shown, which is dear to prove.
pub fn same<T: PartialEq + Debug>(rt: &impl Abort, found: &T, due: &T) {
    assert_eq!(rt; *found, *due);
}
