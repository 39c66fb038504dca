//! Sectors in which something was recorded since the last tick, among all of a world.
ghost use Rattle.std.specs.List.{All};
ghost use Rattle.std.specs.Prelude.{◌≡◌, ℕ, ◌<◌, ◌≤◌, ◌+◌, [], None, Some, IfOk, length, map, replicate, slice_set};
ghost use Rattle.std.specs.Vec.{vec_capacity, vec_len};
ghost use Rattle.vx_windows.specs.Sectors.{AreOf, cells_of, entries_in, renewed_each, with_changes};
ghost use Rattle.vx_record.specs.Kept.{AreInOrder, windows_kept};
ghost use Rattle.vx_keeper.specs.Busy.{AreAscending, AreKeptOf, AreNextOf, with_each};

use crate::known::Known;
use crate::ready_at_rest::nothing;
use std::alloc::{AllocError, Global};
use vx_cells::Cells;
use vx_policy::Version;
use vx_record::KeptWindow;
use vx_sector::{Entry, Fresh, Sector};
use vx_windows::fresh_over;

/// The number of the sector.
pub(crate) fn number_of(sector: &Sector) -> usize
    ensures { result ≡ sector.now.base.sector }
{
    sector.base().sector() as usize
}

/// The cells of all sectors that are known, where they stand, those of these sectors in the places
/// of theirs: none are copied.
pub(crate) fn cells_but<'a>(
    alloc: Global,
    known: &'a Known,
    busy: &'a [Sector],
) -> Result<Vec<&'a Cells>, AllocError>
    ensures { IfOk result (λ cells. map (λ c. c.now) cells.items
        ≡ with_each cells_of known.now.map.sectors busy.now) }
{
    let mut cells = known.cells(alloc)?;
    for sector in busy {
        put_at(&mut cells, number_of(sector), sector.cells());
    }
    Ok(cells)
}

/// The cells of these sectors, each in the place of its number among so many, and nothing for the
/// others. They share what they hold with the sectors.
pub(crate) fn written_cells(
    alloc: Global,
    count: usize,
    busy: &[Sector],
) -> Result<Vec<Option<Cells>>, AllocError>
    ensures { IfOk result (λ changes. changes.items
        ≡ with_each (λ s. Some s.cells) (replicate count None) busy.now) }
{
    let mut changes = nothing(alloc, count)?;
    for sector in busy {
        let cells = sector.cells().try_clone()?;
        put_at(&mut changes, number_of(sector), Some(cells));
    }
    Ok(changes)
}

/// What these sectors begin their next windows with, judged by copies of this version: copies of
/// their parts of these cells, of which some have others in their place.
pub(crate) fn fresh_of(
    alloc: Global,
    cells: &[&Cells],
    changes: &[Option<Cells>],
    busy: &[Sector],
    version: &Version,
) -> Result<Vec<Fresh>, AllocError>
    requires each { length changes.now ≡ length cells.now }
    requires there { All (λ s. s.base.sector < length cells.now) busy.now }
    ensures { IfOk result (λ all. AreNextOf (with_changes (map (λ c. c.now) cells.now) changes.now)
        version.now busy.now all.items) }
{
    let mut all = Vec::new(alloc);
    for sector in busy {
        let at = number_of(sector);
        let Some(fresh) = fresh_over(alloc, cells[at], &changes[at], version, false)? else {
            unreachable!()
        };
        all.push(fresh)?;
    }
    Ok(all)
}

/// Begins the next window of each of these sectors with this, and hands out the windows that this
/// closes, those that have entries, in the list that is handed in. It takes no memory.
pub(crate) fn renew_busy(
    busy: &mut [Sector],
    fresh: Vec<Fresh>,
    mut kept: Vec<KeptWindow>,
) -> Vec<KeptWindow>
    requires fresh { AreOf busy.old fresh.items }
    requires order { AreAscending busy.old }
    requires room { (kept.items ≡ []) × (length busy.old ≤ vec_capacity kept) }
    ensures renewed { busy.new ≡ renewed_each busy.old fresh.items }
    ensures kept { AreKeptOf busy.old result.items }
{
    for (at, fresh) in fresh.into_iter().enumerate() {
        let sector = &mut busy[at];
        let number = number_of(sector);
        let closed = sector.renew(fresh);
        keep(&mut kept, number, closed);
    }
    kept
}

// Keeps the window of the sector of that number, which is of a later one than those that are kept,
// if it has entries.
fn keep(kept: &mut Vec<KeptWindow>, sector: usize, entries: Vec<Entry>)
    requires order { AreInOrder sector kept.old.items }
    requires room { vec_len kept.old < vec_capacity kept.old }
    ensures order { AreInOrder (sector + 1) kept.new.items }
    ensures windows { (count : ℕ) → windows_kept count kept.new.items
        ≡ slice_set (windows_kept count kept.old.items) sector (entries_in entries) }
    ensures few { vec_len kept.new ≤ vec_len kept.old + 1 }
    ensures room { vec_capacity kept.new ≡ vec_capacity kept.old }
{
    if !entries.is_empty() {
        kept.push_reserved(KeptWindow { sector, entries });
    }
}

// Puts something in the place of that number, if there is one.
fn put_at<T: Drop>(places: &mut [T], number: usize, value: T)
    ensures { places.new ≡ slice_set places.old number value }
{
    if number < places.len() {
        places[number] = value;
    }
}
