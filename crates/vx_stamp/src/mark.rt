ghost use Rattle.std.specs.Prelude.{◌≡◌, true, slice_get};

use crate::history::History;
use crate::law::Law;
use logbook::Seen;
use std::marker::{Model, PhantomData};

/// The number that a value was stamped with. Contracts see it as the value, as it was then.
#[derive(Drop)]
pub struct Mark<T, H: History> {
    stamp: u64,
    seen: Seen<T, u64, Law>,
    of: PhantomData<H>,
}

impl<T, H: History> Model for Mark<T, H> {
    ghost use Rattle.std.specs.Prelude.{◌≡◌, Option, slice_get};

    ghost Value = { Option T };

    ghost view = { λ m. slice_get m.seen.log m.stamp };

    ghost invariant = { λ m. m.seen.book ≡ H.book };
}

impl<T, H: History> Mark<T, H> {
    // The mark of the value that has this number among those that were seen.
    pub(crate) fn new(stamp: u64, seen: Seen<T, u64, Law>) -> Mark<T, H>
        requires { seen.book ≡ H.book }
        ensures { result ≡ slice_get seen.log stamp }
    {
        Mark {
            stamp,
            seen,
            of: PhantomData,
        }
    }

    /// Whether both have one number, and so are of one value. Values that were stamped apart have
    /// two numbers, also where they are equal. It takes no memory.
    pub fn same(&self, other: &Mark<T, H>) -> bool
        ensures { result ≡ true → (v w : T) → self.now ≡ Some v → other.now ≡ Some w → v ≡ w }
    {
        let mut both = self.seen.again();
        both.learn(&other.seen);
        self.stamp == other.stamp
    }

    /// A copy. It takes no memory.
    pub fn again(&self) -> Mark<T, H>
        ensures { result ≡ self.now }
    {
        Mark {
            stamp: self.stamp,
            seen: self.seen.again(),
            of: PhantomData,
        }
    }
}
