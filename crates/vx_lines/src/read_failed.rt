/// A read failed, or the script has more bytes, or took more reads, than it may.
#[derive(Clone, Copy, Debug, PartialEq, Eq)]
pub struct ReadFailed;
