//! Whether the record of a world says the calls that a player's own list says.
ghost use Rattle.std.specs.Bool.{Decides};
ghost use Rattle.std.specs.Prelude.{◌≡◌, ◌≢◌, [], ◌∷◌, ◌++◌, List, map, MatchOption};
ghost use Rattle.vx_sector.specs.SectorData.{entry_of};
ghost use Rattle.vx_record.specs.Records.{tick_in};
ghost use Rattle.vx_record.specs.Said.{calls_of, window_at, said_of};
ghost use Rattle.vx_record.specs.declared.call.Call.{Call};

use crate::call::Call;
use crate::tick::Tick;
use vx_sector::Entry;

/// Whether these are the calls that the record says of the seat in a sector: those in its windows
/// that the ticks closed, and then those in the open window.
pub fn says(calls: &[Call], seat: u8, at: usize, ticks: &[Tick], window: &[Entry]) -> bool
    ensures { Decides result (calls.now
        ≡ said_of seat at (map tick_in ticks.now) (map entry_of window.now)) }
{
    let mut rest = calls;
    for tick in ticks {
        let Some(others) = rest_after(rest, seat, window_of(tick, at)) else {
            return false;
        };
        rest = others;
    }
    match rest_after(rest, seat, window) {
        Some(others) => others.is_empty(),
        None => false,
    }
}

// The entries of a sector in a tick's windows.
#[inline(always)]
fn window_of(tick: &Tick, at: usize) -> &[Entry]
    ensures { map entry_of result.now ≡ window_at at (tick_in tick.now) }
{
    tick.windows.window(at)
}

// What is left of the calls after those of the seat among the entries; none where they don't begin
// with those.
fn rest_after<'a>(calls: &'a [Call], seat: u8, entries: &[Entry]) -> Option<&'a [Call]>
    ensures { MatchOption result
        ((more : List Call) → calls.now ≢ calls_of seat (map entry_of entries.now) ++ more)
        (λ rest. calls.now ≡ calls_of seat (map entry_of entries.now) ++ rest.now) }
{
    let mut rest = calls;
    for entry in entries {
        let Some(others) = rest_after_one(rest, seat, entry) else {
            return None;
        };
        rest = others;
    }
    Some(rest)
}

// What is left of the calls after one entry.
pub(crate) fn rest_after_one<'a>(calls: &'a [Call], seat: u8, entry: &Entry) -> Option<&'a [Call]>
    ensures { MatchOption result
        ((more : List Call) → calls.now ≢ calls_of seat (entry_of entry.now ∷ []) ++ more)
        (λ rest. calls.now ≡ calls_of seat (entry_of entry.now ∷ []) ++ rest.now) }
{
    if entry.seat.number != seat {
        return Some(calls);
    }
    let [first, rest @ ..] = calls else {
        return None;
    };
    if first.is_in(entry) { Some(rest) } else { None }
}
