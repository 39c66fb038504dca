ghost use Rattle.std.specs.Prelude.{◌≡◌, ◌+◌, ◌<◌, ◌≤◌};
ghost use Rattle.vx_world.specs.Reserves.{most_reserved};

use crate::books::Books;
use crate::patience::patiently;
use std::sync::ledger::{Ledger, Share};
use std::sync::{Mutex, Wait};

/// By how many calls the books are raised at once, and how many a reserve has at most.
pub const AT_ONCE: u64 = 64;

/// Calls that both books count already and that were not made yet. Each pass has such a reserve, so
/// that it takes the lock of the books once for many calls.
#[derive(Drop)]
pub struct Reserve<A: Ledger, B: Ledger> {
    pub(crate) places: Share<A>,
    pub(crate) seats: Share<B>,
    pub(crate) left: u64,
    ghost parts: { seats.parts ≡ places.parts },
    ghost in_sectors: { places.amount ≡ left },
    ghost on_lists: { seats.amount ≡ left },
    ghost few: { left ≤ most_reserved },
}

impl<A: Ledger, B: Ledger> Reserve<A, B> {
    /// A reserve of no call, which stands on these parts of the two ledgers.
    pub fn new(places: Share<A>, seats: Share<B>) -> Reserve<A, B>
        requires parts { seats.parts ≡ places.parts }
        requires none { (places.amount ≡ 0) × (seats.amount ≡ 0) }
        ensures parts { result.places.parts ≡ places.parts }
        ensures none { result.left ≡ 0 }
    {
        Reserve {
            places,
            seats,
            left: 0,
        }
    }

    /// Takes a call out of the reserve: one more in the share of the sector that recorded it, and
    /// in that of the pass that made it. Where none is left, the books are raised first.
    pub fn spend<R: Wait>(
        &mut self,
        rt: &R,
        books: &Mutex<Books<A, B>>,
        place: &mut Share<A>,
        seat: &mut Share<B>,
    )
        requires reserve { 0 < self.old.places.parts }
        requires shares { (0 < place.old.parts) × (0 < seat.old.parts) }
        ensures reserve { self.new.places.parts ≡ self.old.places.parts }
        ensures place { (place.new.amount ≡ place.old.amount + 1)
            × (place.new.parts ≡ place.old.parts) }
        ensures seat { (seat.new.amount ≡ seat.old.amount + 1)
            × (seat.new.parts ≡ seat.old.parts) }
    {
        self.fill(rt, books);
        let Reserve {
            places,
            seats,
            left,
        } = self;
        places.transfer(place, 1);
        seats.transfer(seat, 1);
        *left -= 1;
    }

    // Has the books raised where nothing is left.
    fn fill<R: Wait>(&mut self, rt: &R, books: &Mutex<Books<A, B>>)
        requires part { 0 < self.old.places.parts }
        ensures part { self.new.places.parts ≡ self.old.places.parts }
        ensures some { 0 < self.new.left }
    {
        if self.left > 0 {
            return;
        }
        patiently(rt, books).raise(rt, self);
    }
}
