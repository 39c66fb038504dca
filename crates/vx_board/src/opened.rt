ghost use Rattle.std.specs.Prelude.{◌≡◌, []};

use crate::board::Board;
use crate::front::Front;
use crate::head::Head;
use crate::told::Told;
use logbook::{Seen, Start, Word};
use std::marker::Model;
use vx_stamp::Law;

/// A book of edits in which none stands yet, and which no type names yet. Contracts see it as its
/// book.
#[derive(Drop)]
pub struct Opened {
    head: Word<Told, u64, Law>,
    seen: Seen<Told, u64, Law>,
}

impl Model for Opened {
    ghost use Rattle.std.specs.Prelude.{◌≡◌, []};
    ghost use Rattle.logbook.specs.Pages.{Book};
    ghost use Rattle.vx_stamp.specs.Rules.{head_of};

    ghost Value = { Book };

    ghost view = { λ o. o.seen.book };

    ghost invariant = { λ o. (o.head ≡ head_of o.seen.book) × (o.seen.log ≡ []) };
}

impl Opened {
    /// A new book. It takes no memory.
    pub fn new() -> Opened {
        let (seen, mut first, _second) = Seen::open(Start::alone(), 0, 0);
        Opened {
            head: Word::tracked(0, &mut first),
            seen,
        }
    }

    /// The book under the name that the types have, and the front of no edit. It takes no memory.
    pub(crate) fn named<J: Board>(self) -> (Head<J>, Front<J>)
        requires { self ≡ J.edits }
        ensures { result.1 ≡ [] }
    {
        let Opened { head, seen } = self;
        (Head::new(head), Front::new(seen))
    }
}
