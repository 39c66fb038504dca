//! Whether the passes of a world, its sectors and its keeper agree in the end.
ghost use Rattle.std.specs.Bool.{Decides};
ghost use Rattle.std.specs.List.{All};
ghost use Rattle.std.specs.Prelude.{◌≡◌, ℕ, ◌+◌, ◌<◌, ◌≤◌, ◌^◌, [], true, length, map, slice_index_or, MatchOption};
ghost use Rattle.vx_record.specs.Settling.{IsEachOnce, callers_at, AreKnown, IsTorn, sector_in, open_entries, Agrees, AllAgree, SomeDiffers, IsFound};
ghost use Rattle.vx_record.specs.Records.{tick_in};
ghost use Rattle.vx_record.specs.Rests.{lists_in, AreAllSaid, IsUnsaidAt};
ghost use Rattle.vx_record.specs.Said.{closed_at};
ghost use Rattle.vx_sector.specs.SectorData.{entry_of};
ghost use Rattle.vx_windows.specs.declared.limits.TheConstants.{MAX_PLAYERS};

use crate::archive::Archive;
use crate::call::Call;
use crate::call_table::CallTable;
use crate::caller::Caller;
use crate::fault::Fault;
use crate::place::Place;
use crate::rests::{take_closed, unsaid};
use crate::tick::Tick;
use vx_sector::Entry;
use vx_windows::MAX_PLAYERS;

// How many sectors one walk over the ticks serves: ticks in which nothing happens then cost each of
// them little, and their tables, 64 KiB, still fit on the stack.
const SECTORS_A_WALK: usize = 64;

/// Why a world is not settled, if it is not: a pass is missing, or else a sector differs from what
/// its keeper has of it, or else a list differs from what the record says. It takes no memory.
pub fn disagreement<P: Caller, S: Place>(
    callers: &[P],
    seats: u8,
    places: &[S],
    keeper: &S::Keeper,
    archive: &Archive,
) -> Option<Fault>
    requires lists { All (λ p. length (P.caller p).lists ≡ length places.now) callers.now }
    requires all { length places.now ≡ S.count keeper.now }
    requires few { length places.now < 2 ^ 32 }
    requires seats { seats ≤ MAX_PLAYERS }
    ensures { IsFound seats (map P.caller callers.now) (map S.sector places.now)
        (S.known keeper.now) archive.now.chronicle.ticks result }
{
    if !is_each_once(callers, seats) {
        return Some(Fault::PassMissing);
    }
    if let Some(at) = first_torn(places, keeper) {
        return Some(Fault::Torn(at));
    }
    let (seat, at) = first_difference(callers, seats, places, archive)?;
    Some(Fault::ListsDiffer(seat, at))
}

// Whether each seat has one caller, and no caller another seat.
fn is_each_once<P: Caller>(callers: &[P], seats: u8) -> bool
    ensures { Decides result (IsEachOnce seats (map P.caller callers.now)) }
{
    are_below(callers, seats) && each_has_one(callers, seats)
}

// Whether each caller has one of so many seats.
fn are_below<P: Caller>(callers: &[P], seats: u8) -> bool
    ensures { Decides result (All (λ c. c.seat < seats) (map P.caller callers.now)) }
{
    for caller in callers {
        if seats <= caller.seat() {
            return false;
        }
    }
    true
}

// Whether each of so many seats has one caller.
fn each_has_one<P: Caller>(callers: &[P], seats: u8) -> bool
    ensures { Decides result
        ((seat : ℕ) → seat < seats → callers_at seat (map P.caller callers.now) ≡ 1) }
{
    for seat in 0..seats {
        if callers_at(callers, seat) != 1 {
            return false;
        }
    }
    true
}

// How many callers have this seat.
fn callers_at<P: Caller>(callers: &[P], seat: u8) -> usize
    ensures { result ≡ callers_at seat (map P.caller callers.now) }
{
    callers
        .iter()
        .filter(|caller| caller.seat() == seat)
        .count()
}

// The first sector that is away or differs from what the keeper has of it.
fn first_torn<S: Place>(places: &[S], keeper: &S::Keeper) -> Option<u32>
    requires all { length places.now ≡ S.count keeper.now }
    requires few { length places.now < 2 ^ 32 }
    ensures { MatchOption result
        (AreKnown (S.known keeper.now) (map S.sector places.now))
        (IsTorn (S.known keeper.now) (map S.sector places.now)) }
{
    for (at, place) in places.iter().enumerate() {
        if !place.is_known(at, keeper) {
            return Some(at as u32);
        }
    }
    None
}

// A seat and a sector of which a list differs from what the record says. It goes over the ticks
// once for many sectors, and over the entries of each sector once, however many seats there are.
fn first_difference<P: Caller, S: Place>(
    callers: &[P],
    seats: u8,
    places: &[S],
    archive: &Archive,
) -> Option<(u8, u32)>
    requires seats { seats ≤ MAX_PLAYERS }
    requires once { IsEachOnce seats (map P.caller callers.now) }
    requires lists { All (λ p. length (P.caller p).lists ≡ length places.now) callers.now }
    requires few { length places.now < 2 ^ 32 }
    ensures { MatchOption result
        (All (AllAgree archive.now.chronicle.ticks (map S.sector places.now))
        (map P.caller callers.now))
        (λ d. SomeDiffers archive.now.chronicle.ticks (map S.sector places.now)
        (map P.caller callers.now) d.0 d.1) }
{
    let none = CallTable {
        calls: [&[]; MAX_PLAYERS],
    };
    let mut room = [none; SECTORS_A_WALK];
    let mut first = 0;
    while first < places.len() {
        let count = SECTORS_A_WALK.min(places.len() - first);
        let tables = &mut room[..count];
        if let Some((seat, at)) = differing_among(tables, callers, seats, first, places, archive) {
            return Some((seat, at as u32));
        }
        first += count;
    }
    None
}

// A seat and a sector of which a list differs from what the record says, of as many sectors from
// `first` on as there are tables. It puts their calls into these, and takes them from there.
fn differing_among<'a, P: Caller, S: Place>(
    tables: &mut [CallTable<'a>],
    callers: &'a [P],
    seats: u8,
    first: usize,
    places: &[S],
    archive: &Archive,
) -> Option<(u8, usize)>
    requires seats { seats ≤ MAX_PLAYERS }
    requires once { IsEachOnce seats (map P.caller callers.now) }
    requires lists { All (λ p. length (P.caller p).lists ≡ length places.now) callers.now }
    requires few { length places.now < 2 ^ 32 }
    requires within { first + length tables.old ≤ length places.now }
    ensures { MatchOption result
        ((k : ℕ) → first ≤ k → k < first + length tables.old
        → All (λ c. Agrees archive.now.chronicle.ticks (map S.sector places.now) c k)
        (map P.caller callers.now))
        (λ d. SomeDiffers archive.now.chronicle.ticks (map S.sector places.now)
        (map P.caller callers.now) d.0 d.1) }
{
    put_calls(tables, callers, seats, first);
    let ticks = ticks_with(archive, first, first + tables.len());
    if let Some((seat, at)) = take_closed(tables, seats, first, ticks) {
        return Some((seat, first + at));
    }
    if let Some((seat, at)) = first_unsaid(tables, seats, first, places) {
        return Some((seat, first + at));
    }
    None
}

// Puts the calls in the sectors from `first` on into their tables, by the seats of their callers.
fn put_calls<'a, P: Caller>(tables: &mut [CallTable<'a>], callers: &'a [P], seats: u8, first: usize)
    requires seats { seats ≤ MAX_PLAYERS }
    requires once { IsEachOnce seats (map P.caller callers.now) }
    requires lists { All (λ p. first + length tables.old ≤ length (P.caller p).lists) callers.now }
    requires few { first + length tables.old < 2 ^ 32 }
    ensures { (at : ℕ) → at < length tables.old → All (λ c. slice_index_or
        (slice_index_or (map lists_in tables.new) at []) c.seat []
        ≡ slice_index_or c.lists (first + at) []) (map P.caller callers.now) }
{
    for at in 0..tables.len() {
        tables[at] = CallTable {
            calls: calls_at(callers, seats, first + at),
        };
    }
}

// Where the calls of a seat, in a sector from `first` on that has a table, are not those in its
// open window: the seat, and the place of the table. The calls are taken on the way.
fn first_unsaid<S: Place>(
    tables: &mut [CallTable],
    seats: u8,
    first: usize,
    places: &[S],
) -> Option<(u8, usize)>
    requires seats { seats ≤ MAX_PLAYERS }
    requires within { first + length tables.old ≤ length places.now }
    ensures { MatchOption result
        (AreAllSaid seats first (map lists_in tables.old)
        (λ k. open_entries (sector_in (map S.sector places.now) k)))
        (λ d. IsUnsaidAt seats first (map lists_in tables.old)
        (λ k. open_entries (sector_in (map S.sector places.now) k)) d.0 d.1) }
{
    for at in 0..tables.len() {
        if let Some(seat) = unsaid(&mut tables[at], seats, window_in(&places[first + at])) {
            return Some((seat, at));
        }
    }
    None
}

// The ticks, where entries of any sector from `first` on, before `end`, are closed in them; else
// none, so that no tick is looked at for sectors in which nothing was recorded.
fn ticks_with(archive: &Archive, first: usize, end: usize) -> &[Tick]
    ensures { (k : ℕ) → first ≤ k → k < end
        → closed_at k (map tick_in result.now) ≡ closed_at k archive.now.chronicle.ticks }
{
    if is_untouched(archive, first, end) {
        return &[];
    }
    archive.ticks()
}

// Whether it is known that no entry of the sectors from `first` on, before `end`, is closed.
fn is_untouched(archive: &Archive, first: usize, end: usize) -> bool
    ensures { result ≡ true → (k : ℕ) → first ≤ k → k < end
        → closed_at k archive.now.chronicle.ticks ≡ [] }
{
    for at in first..end {
        if archive.counts().len() <= at || archive.count(at) != 0 {
            return false;
        }
    }
    true
}

// The entries of a sector's open window; none where no sector is there.
fn window_in<S: Place>(place: &S) -> &[Entry]
    ensures { map entry_of result.now ≡ open_entries (S.sector place.now) }
{
    match place.sector() {
        Some(sector) => sector.entries(),
        None => &[],
    }
}

// The calls in a sector, in a table by the seats of their callers.
fn calls_at<P: Caller>(callers: &[P], seats: u8, at: usize) -> [&[Call]; MAX_PLAYERS]
    requires seats { seats ≤ MAX_PLAYERS }
    requires once { IsEachOnce seats (map P.caller callers.now) }
    requires lists { All (λ p. at < length (P.caller p).lists) callers.now }
    ensures { All (λ c. slice_index_or (map (λ calls. calls.now) result) c.seat []
        ≡ slice_index_or c.lists at []) (map P.caller callers.now) }
{
    let mut table: [&[Call]; MAX_PLAYERS] = [&[]; MAX_PLAYERS];
    for caller in callers {
        table[usize::from(caller.seat())] = caller.lists().calls(at);
    }
    table
}
