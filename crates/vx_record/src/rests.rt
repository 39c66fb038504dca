//! What is left of the calls of each seat behind entries of the record. The calls in a sector are
//! in a table by the numbers of the seats, so that one walk over its entries serves all seats, and
//! one over the ticks serves as many sectors as have tables.
ghost use Rattle.std.specs.Prelude.{◌≡◌, ◌≢◌, ℕ, ◌<◌, ◌≤◌, [], ◌∷◌, true, false, length, map, slice_index_or, MatchOption};
ghost use Rattle.vx_sector.specs.SectorData.{entry_of};
ghost use Rattle.vx_windows.specs.declared.limits.TheConstants.{MAX_PLAYERS};
ghost use Rattle.vx_record.specs.Records.{tick_in};
ghost use Rattle.vx_record.specs.Said.{window_at, closed_at};
ghost use Rattle.vx_record.specs.Rests.{lists_in, AreBehind, IsAstray, AreAllBehind, IsAstrayAt, AreSaid, IsUnsaid};

use crate::call::Call;
use crate::call_table::CallTable;
use crate::saying::rest_after_one;
use crate::tick::Tick;
use vx_sector::Entry;

// Takes the calls in the windows that the ticks closed, of the sectors from `first` on that have
// tables. Where a seat's calls in a sector don't begin with those: the seat, and the place of the
// table.
pub(crate) fn take_closed(
    tables: &mut [CallTable],
    seats: u8,
    first: usize,
    ticks: &[Tick],
) -> Option<(u8, usize)>
    requires { seats ≤ MAX_PLAYERS }
    ensures { MatchOption result
        (AreAllBehind seats first (map lists_in tables.old)
        (λ k. closed_at k (map tick_in ticks.now))
        (map lists_in tables.new))
        (λ d. IsAstrayAt seats first (map lists_in tables.old)
        (λ k. closed_at k (map tick_in ticks.now)) d.0 d.1) }
{
    for tick in ticks {
        if let Some(found) = take_tick(tables, seats, first, tick) {
            return Some(found);
        }
    }
    None
}

// Takes the calls in a tick's windows. It goes to those alone that have entries.
fn take_tick(tables: &mut [CallTable], seats: u8, first: usize, tick: &Tick) -> Option<(u8, usize)>
    requires { seats ≤ MAX_PLAYERS }
    ensures { MatchOption result
        (AreAllBehind seats first (map lists_in tables.old)
        (λ k. window_at k (tick_in tick.now))
        (map lists_in tables.new))
        (λ d. IsAstrayAt seats first (map lists_in tables.old)
        (λ k. window_at k (tick_in tick.now)) d.0 d.1) }
{
    for window in tick.windows.kept_from(first) {
        let at = window.sector - first;
        // No later window is of an earlier sector.
        if tables.len() <= at {
            return None;
        }
        if let Some(seat) = take_from(&mut tables[at], seats, &window.entries) {
            return Some((seat, at));
        }
    }
    None
}

// One of so many seats whose calls in a table are not those among the entries. The calls are taken
// on the way.
pub(crate) fn unsaid(table: &mut CallTable, seats: u8, entries: &[Entry]) -> Option<u8>
    requires { seats ≤ MAX_PLAYERS }
    ensures { MatchOption result (AreSaid seats (lists_in table.old) (map entry_of entries.now))
        (λ seat. IsUnsaid seats (lists_in table.old) (map entry_of entries.now) seat) }
{
    if let Some(seat) = take_from(table, seats, entries) {
        return Some(seat);
    }
    first_left(&table.calls, seats)
}

// Takes the calls in the entries from a table; a seat whose calls don't begin with those, if there
// is one.
#[inline(always)]
fn take_from(table: &mut CallTable, seats: u8, entries: &[Entry]) -> Option<u8>
    requires { seats ≤ MAX_PLAYERS }
    ensures { MatchOption result
        (AreBehind seats (lists_in table.old) (map entry_of entries.now) (lists_in table.new))
        (λ seat. IsAstray seats (lists_in table.old) (map entry_of entries.now) seat) }
{
    take_all(&mut table.calls, seats, entries)
}

// Takes the calls in the entries; a seat whose calls don't begin with those, if there is one.
#[inline(always)]
fn take_all(rests: &mut [&[Call]], seats: u8, entries: &[Entry]) -> Option<u8>
    requires { seats ≤ length rests.old }
    ensures { MatchOption result
        (AreBehind seats (map (λ rest. rest.now) rests.old) (map entry_of entries.now)
        (map (λ rest. rest.now) rests.new))
        (λ seat. IsAstray seats (map (λ rest. rest.now) rests.old) (map entry_of entries.now)
        seat) }
{
    for entry in entries {
        if !take_one(rests, seats, entry) {
            return Some(entry.seat.number);
        }
    }
    None
}

// Takes the call in an entry, and says whether its seat's calls begin with it. An entry of another
// seat than these is passed over.
fn take_one(rests: &mut [&[Call]], seats: u8, entry: &Entry) -> bool
    requires { seats ≤ length rests.old }
    ensures taken { result ≡ true → AreBehind seats (map (λ rest. rest.now) rests.old)
        (entry_of entry.now ∷ []) (map (λ rest. rest.now) rests.new) }
    ensures astray { result ≡ false → IsAstray seats (map (λ rest. rest.now) rests.old)
        (entry_of entry.now ∷ []) (entry_of entry.now).seat.number }
{
    let seat = entry.seat.number;
    if seats <= seat {
        return true;
    }
    let at = usize::from(seat);
    let Some(rest) = rest_after_one(rests[at], seat, entry) else {
        return false;
    };
    rests[at] = rest;
    true
}

// The first of so many seats of which calls are left.
fn first_left(rests: &[&[Call]], seats: u8) -> Option<u8>
    requires { seats ≤ length rests.now }
    ensures { MatchOption result
        ((seat : ℕ) → seat < seats → slice_index_or (map (λ rest. rest.now) rests.now) seat [] ≡ [])
        (λ seat. (seat < seats)
        × (slice_index_or (map (λ rest. rest.now) rests.now) seat [] ≢ [])) }
{
    for seat in 0..seats {
        if !rests[usize::from(seat)].is_empty() {
            return Some(seat);
        }
    }
    None
}
