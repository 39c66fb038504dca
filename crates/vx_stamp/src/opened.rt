ghost use Rattle.std.specs.Prelude.{◌≡◌};

use crate::history::History;
use crate::law::Law;
use crate::stamper::Stamper;
use logbook::{Seen, Start, Word};
use std::marker::Model;

/// A book in which nothing is stamped yet, and which no type names yet. Contracts see it as its
/// book.
#[derive(Drop)]
pub struct Opened<T> {
    head: Word<T, u64, Law>,
    seen: Seen<T, u64, Law>,
}

impl<T> Model for Opened<T> {
    ghost use Rattle.std.specs.Prelude.{◌≡◌, []};
    ghost use Rattle.logbook.specs.Pages.{Book};
    ghost use Rattle.vx_stamp.specs.Rules.{head_of};

    ghost Value = { Book };

    ghost view = { λ o. o.seen.book };

    ghost invariant = { λ o. (o.head ≡ head_of o.seen.book) × (o.seen.log ≡ []) };
}

impl<T> Opened<T> {
    /// A new book. It takes no memory.
    pub fn new() -> Opened<T> {
        let (seen, mut first, _second) = Seen::open(Start::alone(), 0, 0);
        Opened {
            head: Word::tracked(0, &mut first),
            seen,
        }
    }

    /// What stamps values under the name that the types have. It takes no memory.
    pub fn named<H: History>(self) -> Stamper<T, H>
        requires { self ≡ H.book }
    {
        let Opened { head, seen } = self;
        Stamper::new(head, seen)
    }
}
