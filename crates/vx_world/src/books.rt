ghost use Rattle.std.specs.Prelude.{◌≡◌, ◌+◌, ◌<◌};

use crate::reserve::{AT_ONCE, Reserve};
use std::sync::Wait;
use std::sync::ledger::{Book, Ledger, Share};

/// The books of the two ledgers, which are equal: as many calls are recorded in sectors as are on
/// the lists of passes, each beside what the passes have in reserve. What is left of the shares
/// once each sector and each pass has its own stands beside them.
#[derive(Drop)]
pub struct Books<A: Ledger, B: Ledger> {
    count: u64,
    in_sectors: Book<A>,
    on_lists: Book<B>,
    place_rest: Share<A>,
    seat_rest: Share<B>,
    ghost sectors_are: { in_sectors.total ≡ count },
    ghost lists_are: { on_lists.total ≡ count },
    ghost places_out: { (place_rest.parts ≡ 0) × (place_rest.amount ≡ 0) },
    ghost seats_out: { (seat_rest.parts ≡ 0) × (seat_rest.amount ≡ 0) },
}

impl<A: Ledger, B: Ledger> Books<A, B> {
    /// Books in which nothing is recorded yet, and what is left of the shares.
    pub fn new(
        in_sectors: Book<A>,
        on_lists: Book<B>,
        place_rest: Share<A>,
        seat_rest: Share<B>,
    ) -> Books<A, B>
        requires sectors { in_sectors.total ≡ 0 }
        requires lists { on_lists.total ≡ 0 }
        requires places { (place_rest.parts ≡ 0) × (place_rest.amount ≡ 0) }
        requires seats { (seat_rest.parts ≡ 0) × (seat_rest.amount ≡ 0) }
    {
        Books {
            count: 0,
            in_sectors,
            on_lists,
            place_rest,
            seat_rest,
        }
    }

    /// Raises both books by what a reserve gets anew. Where that would pass 2^64 calls, more than
    /// any world can record, it does not return.
    pub fn raise<R: Wait>(&mut self, rt: &R, reserve: &mut Reserve<A, B>)
        requires part { 0 < reserve.old.places.parts }
        requires spent { reserve.old.left ≡ 0 }
        ensures part { reserve.new.places.parts ≡ reserve.old.places.parts }
        ensures more { reserve.new.left ≡ AT_ONCE }
    {
        let Books {
            count,
            in_sectors,
            on_lists,
            ..
        } = self;
        let Some(next) = count.checked_add(AT_ONCE) else {
            for _ in rt.forever() {}
            unreachable!()
        };
        let Reserve {
            places,
            seats,
            left,
        } = reserve;
        in_sectors.add(places, AT_ONCE);
        on_lists.add(seats, AT_ONCE);
        *left = AT_ONCE;
        *count = next;
    }

    /// Takes back what a reserve has left: the books count so many calls less. What it stood on is
    /// joined to these shares.
    pub fn take_back(&mut self, reserve: Reserve<A, B>, places: &mut Share<A>, seats: &mut Share<B>)
        ensures places { (places.new.parts ≡ places.old.parts + reserve.places.parts)
            × (places.new.amount ≡ places.old.amount) }
        ensures seats { (seats.new.parts ≡ seats.old.parts + reserve.places.parts)
            × (seats.new.amount ≡ seats.old.amount) }
    {
        let Books {
            count,
            in_sectors,
            on_lists,
            ..
        } = self;
        let Reserve {
            places: place,
            seats: seat,
            left,
        } = reserve;
        let mut place = place;
        let mut seat = seat;
        in_sectors.audit(&mut place);
        in_sectors.sub(&mut place, left);
        on_lists.sub(&mut seat, left);
        *count -= left;
        places.merge(place);
        seats.merge(seat);
    }

    /// A share of the sectors' ledger with no part of it.
    pub fn no_place(&mut self) -> Share<A>
        ensures { (result.parts ≡ 0) × (result.amount ≡ 0) }
    {
        self.place_rest.empty()
    }

    /// A share of the passes' ledger with no part of it.
    pub fn no_seat(&mut self) -> Share<B>
        ensures { (result.parts ≡ 0) × (result.amount ≡ 0) }
    {
        self.seat_rest.empty()
    }

    /// How many calls the books count: as many as all shares of each ledger say.
    pub fn calls(&mut self, places: &mut Share<A>, seats: &mut Share<B>) -> u64
        requires { (places.old.parts ≡ A.parts) × (seats.old.parts ≡ B.parts) }
        ensures places { result ≡ places.old.amount }
        ensures seats { result ≡ seats.old.amount }
    {
        let Books {
            count,
            in_sectors,
            on_lists,
            ..
        } = self;
        in_sectors.audit(places);
        on_lists.audit(seats);
        *count
    }
}
