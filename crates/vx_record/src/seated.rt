ghost use Rattle.std.specs.Bool.{Decides};
ghost use Rattle.std.specs.Prelude.{map};
ghost use Rattle.vx_sector.specs.SectorData.{seat_of, entry_of};
ghost use Rattle.vx_record.specs.Chronicles.{IsSeatOf, AreSeated};

use crate::opening::Opening;
use vx_sector::{Entry, Seat};

/// Whether each of the entries was made from a seat of the world that opened so.
pub fn are_seated(opening: &Opening, entries: &[Entry]) -> bool
    ensures { Decides result (AreSeated opening.now.names (map entry_of entries.now)) }
{
    for entry in entries {
        if !is_seat_of(opening, &entry.seat) {
            return false;
        }
    }
    true
}

// Whether the seat is that of the name with its number.
fn is_seat_of(opening: &Opening, seat: &Seat) -> bool
    ensures { Decides result (IsSeatOf opening.now.names (seat_of seat.now)) }
{
    match opening.names().get(usize::from(seat.number)) {
        Some(name) => *name == seat.name,
        None => false,
    }
}
