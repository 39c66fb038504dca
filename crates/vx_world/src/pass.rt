ghost use Rattle.std.specs.Prelude.{◌≡◌, ◌+◌, length};
ghost use Rattle.vx_sector.specs.SectorData.{seat_of};
ghost use Rattle.vx_record.specs.Calls.{calls_in};

use crate::books::Books;
use crate::reserve::Reserve;
use crate::seats::Seats;
use crossbeam_utils::CachePadded;
use std::sync::ledger::Share;
use vx_keeper::Places;
use vx_record::{Caller, Lists};
use vx_sector::Seat;

/// The pass of a player: with it one makes calls from a seat of the world, and it keeps those that
/// were recorded, with their answers, in a list for each sector. Its share is as many calls as
/// stand on the lists.
pub struct Pass<A: Places, B: Seats> {
    pub(crate) seat: Seat,
    pub(crate) lists: Lists,
    pub(crate) share: Share<B>,
    pub(crate) reserve: Reserve<A, B>,
    // Each call writes to the reserve, while another thread reads the pass that stands behind.
    apart: CachePadded<()>,
    ghost one_part: { share.parts ≡ 1 },
    ghost reserve_part: { reserve.places.parts ≡ 1 },
    ghost counted: { share.amount ≡ calls_in lists },
    ghost all_here: { length lists ≡ A.all },
}

// Written out, so that what is above this crate need not prove how its parts are let go.
impl<A: Places, B: Seats> Drop for Pass<A, B> {
    fn drop(self) {
        let Pass {
            seat: _,
            lists: _lists,
            share: _share,
            reserve: _reserve,
            apart: _,
        } = self;
    }
}

impl<A: Places, B: Seats> Pass<A, B> {
    // The pass of a seat, with which nothing was called yet.
    pub(crate) fn new(
        seat: Seat,
        lists: Lists,
        share: Share<B>,
        reserve: Reserve<A, B>,
    ) -> Pass<A, B>
        requires one_part { share.parts ≡ 1 }
        requires reserve_part { reserve.places.parts ≡ 1 }
        requires counted { share.amount ≡ calls_in lists }
        requires all_here { length lists ≡ A.all }
        ensures seat { result.seat ≡ seat }
        ensures lists { result.lists ≡ lists }
    {
        Pass {
            seat,
            lists,
            share,
            reserve,
            apart: CachePadded::new(()),
        }
    }

    /// The seat.
    pub fn seat(&self) -> &Seat
        ensures { result.now ≡ self.now.seat }
    {
        &self.seat
    }

    /// The recorded calls.
    pub fn lists(&self) -> &Lists
        ensures { result.now ≡ self.now.lists }
    {
        &self.lists
    }

    // Joins what it has of the ledgers to these shares, once the books have back what is left of
    // its reserve.
    pub(crate) fn join_shares(
        self,
        books: &mut Books<A, B>,
        places: &mut Share<A>,
        seats: &mut Share<B>,
    )
        ensures places { (places.new.parts ≡ places.old.parts + 1)
            × (places.new.amount ≡ places.old.amount) }
        ensures seats { (seats.new.parts ≡ seats.old.parts + 2)
            × (seats.new.amount ≡ seats.old.amount + calls_in self.lists) }
    {
        let Pass {
            seat: _,
            lists: _lists,
            share,
            reserve,
            apart: _,
        } = self;
        books.take_back(reserve, places, seats);
        seats.merge(share);
    }
}

impl<A: Places, B: Seats> Caller for Pass<A, B> {
    ghost caller = { λ p. record { seat = p.seat.number; lists = p.lists } };

    fn seat(&self) -> u8 {
        self.seat.number
    }

    fn lists(&self) -> &Lists {
        &self.lists
    }
}
