ghost use Rattle.std.specs.Prelude.{◌≡◌, [], IfSome};
ghost use Rattle.vx_stamp.specs.Rules.{head_of};

use crate::history::History;
use crate::law::{Add, Law, Nothing};
use crate::mark::Mark;
use logbook::{Offer, Seen, Word};
use std::marker::{Model, PhantomData};

/// What stamps values, each with a number of its own.
#[derive(Drop)]
pub struct Stamper<T, H: History> {
    head: Word<T, u64, Law>,
    count: u64,
    seen: Seen<T, u64, Law>,
    of: PhantomData<H>,
}

impl<T, H: History> Model for Stamper<T, H> {
    ghost use Rattle.std.specs.Prelude.{◌≡◌, length};
    ghost use Rattle.vx_stamp.specs.Rules.{head_of};

    ghost Value = { Unit {0} };

    ghost view = { λ s. tt };

    ghost invariant = { λ s. (s.head ≡ head_of H.book) × (s.count ≡ length s.seen.log)
        × (s.seen.book ≡ H.book) };
}

impl<T, H: History> Stamper<T, H> {
    // Stamps what comes, where nothing is stamped yet.
    pub(crate) fn new(head: Word<T, u64, Law>, seen: Seen<T, u64, Law>) -> Stamper<T, H>
        requires head { head ≡ head_of H.book }
        requires log { seen.log ≡ [] }
        requires book { seen.book ≡ H.book }
    {
        Stamper {
            head,
            count: 0,
            seen,
            of: PhantomData,
        }
    }

    /// Stamps a value as it is now, with the next number. `None` where all 64-bit numbers were
    /// given. It takes no memory.
    #[tactic(auto, using(crate::proofs::Stamps::get_last))]
    pub fn mark(&mut self, value: &T) -> Option<Mark<T, H>>
        ensures { IfSome result (λ mark. mark ≡ Some value.now) }
    {
        let stamp = self.count;
        let next = stamp.checked_add(1)?;
        let mut offer: Offer<T, u64, Law, Nothing> = self.seen.plain::<Nothing, T, Add>(value);
        let mut pen = self.seen.no_pen();
        let found = self
            .head
            .compare_exchange::<Add, Nothing>(stamp, next, &mut self.seen, &mut offer, &mut pen);
        // Never so, since nobody else writes the word; no clause of the book says that.
        if found != stamp {
            self.count = found;
            return None;
        }
        self.count = next;
        Some(Mark::new(stamp, self.seen.again()))
    }
}
