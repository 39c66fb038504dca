ghost use Rattle.std.specs.Prelude.{◌≡◌, ◌<◌, ◌^◌, ◌⊎◌, ◌++◌, ◌∷◌, [], None, length, Decides, IfSome};
ghost use mathlib.Core.List.{IsPrefix};
ghost use Rattle.vx_policy.specs.Asked.{asked};
ghost use Rattle.vx_policy.specs.Edits.{after, AreAccepted};
ghost use Rattle.vx_policy.specs.Refusals.{refusal};

use crate::board::Board;
use crate::head::Head;
use crate::told::{Tells, Told};
use logbook::{Offer, Seen};
use std::marker::{Model, PhantomData};
use vx_policy::Edit;
use vx_stamp::{Add, Law, Nothing};

/// A beginning of the list of edits that a desk accepted. It costs a number, whatever the edits
/// are. Contracts see it as these edits.
#[derive(Drop)]
pub struct Front<J: Board> {
    count: u64,
    seen: Seen<Told, u64, Law>,
    of: PhantomData<J>,
}

impl<J: Board> Model for Front<J> {
    ghost use Rattle.std.specs.Prelude.{◌≡◌, List, length};
    ghost use Rattle.vx_policy.specs.Asked.{Asked};
    ghost use Rattle.vx_policy.specs.Edits.{AreAccepted};

    ghost Value = { List Asked };

    ghost view = { λ f. f.seen.log };

    ghost invariant = { λ f. (f.count ≡ length f.seen.log) × (f.seen.book ≡ J.edits)
        × AreAccepted J.first f.seen.log };
}

impl<J: Board> Front<J> {
    // The front of no edit.
    pub(crate) fn new(seen: Seen<Told, u64, Law>) -> Front<J>
        requires book { seen.book ≡ J.edits }
        requires log { seen.log ≡ [] }
        ensures { result ≡ [] }
    {
        Front {
            count: 0,
            seen,
            of: PhantomData,
        }
    }

    /// How many edits it has.
    pub fn len(&self) -> u64
        ensures { result ≡ length self.now }
    {
        self.count
    }

    /// What holds of every front: each of its edits was accepted in its turn, on the first policy.
    pub fn soundness(&self)
        ensures { AreAccepted J.first self.now }
    {
        let _ = &self.count;
    }

    /// A copy. It takes no memory.
    pub fn again(&self) -> Front<J>
        ensures { result ≡ self.now }
    {
        Front {
            count: self.count,
            seen: self.seen.again(),
            of: PhantomData,
        }
    }

    /// The longer of two fronts, which the other begins. It takes no memory.
    pub fn longer(&self, other: &Front<J>) -> Front<J>
        ensures one { (result ≡ self.now) ⊎ (result ≡ other.now) }
        ensures this { IsPrefix self.now result }
        ensures that { IsPrefix other.now result }
        ensures least { length other.now < length self.now → result ≡ self.now }
    {
        let mut both = self.seen.again();
        both.learn(&other.seen);
        if self.count < other.count {
            other.again()
        } else {
            self.again()
        }
    }

    /// Whether both have the same edits. It takes no memory.
    pub fn is_same(&self, other: &Front<J>) -> bool
        ensures { Decides result (self.now ≡ other.now) }
    {
        let mut both = self.seen.again();
        both.learn(&other.seen);
        self.count == other.count
    }

    // The front with an edit more, which nothing stands against. It is added to the history.
    pub(crate) fn and(&self, head: &Head<J>, edit: &Edit) -> Option<Front<J>>
        requires free { refusal (after J.first self.now) (asked edit.now) ≡ None }
        requires room { length self.now < 2 ^ 63 }
        ensures { IfSome result (λ front. front ≡ self.now ++ asked edit.now ∷ []) }
    {
        let count = self.count;
        let mut seen = self.seen.again();
        let mut offer: Offer<Told, u64, Law, Nothing> = seen.plain::<Nothing, Edit, Tells>(edit);
        let mut pen = seen.no_pen();
        let found = head
            .word
            .compare_exchange::<Add, Nothing>(count, count + 1, &mut seen, &mut offer, &mut pen);
        // Never so: nobody but the desk has the word; no clause of the book says that.
        if found != count {
            return None;
        }
        Some(Front {
            count: count + 1,
            seen,
            of: PhantomData,
        })
    }
}
