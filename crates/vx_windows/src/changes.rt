//! What the next windows of sectors begin with: the cells that changed, and what is made over them.
ghost use Rattle.std.specs.List.{All};
ghost use Rattle.std.specs.Option.{unwrap_or};
ghost use Rattle.std.specs.Prelude.{◌≡◌, ◌<◌, ◌≤◌, List, [], true, None, length, map, take, IfOk, MatchOption, OnOk};
ghost use Rattle.vx_cells.specs.Maps.{AreSectors};
ghost use Rattle.vx_cells.specs.Wholes.{with_cells_on};
ghost use Rattle.vx_sector.specs.SectorData.{SectorData};
ghost use Rattle.vx_windows.specs.Sectors.{AreQuiet, AreTogether, cells_of, map_changed, map_with_changes, nexts, window_over, with_changes};

use crate::windows::cells_of;
use std::alloc::{AllocError, Global};
use vx_block::Cell;
use vx_cells::Cells;
use vx_geom::{Bounds, Pos};
use vx_policy::Version;
use vx_sector::{Fresh, Sector};

/// The cells of the sectors after these are put down one after another, in order: those of each
/// sector in which one is put down or a command was recorded, and nothing for the others, which
/// keep theirs. No clause tells for which of them there is nothing: only costs rest on it. The
/// sectors stay as they are, and share with these cells what is the same. Positions outside the
/// world are left out.
pub fn cells_after(
    alloc: Global,
    bounds: Bounds,
    sectors: &[Sector],
    puts: &[(Pos, Cell)],
) -> Result<Vec<Option<Cells>>, AllocError>
    requires { AreSectors bounds (map cells_of sectors.now) }
    ensures after { IfOk result (λ changes. map_changed bounds sectors.now changes.items
        ≡ with_cells_on (record { sizes = bounds; sectors = map cells_of sectors.now }) puts.now) }
    ensures quiet { IfOk result (λ changes. AreQuiet sectors.now changes.items) }
{
    let mut changes = written_cells(alloc, sectors)?;
    let cells = cells_of(alloc, sectors)?;
    put_in_changes(bounds, &cells, &mut changes, puts)?;
    Ok(changes)
}

// The cells of each sector in which a command was recorded, in order, and nothing for the others.
fn written_cells(alloc: Global, sectors: &[Sector]) -> Result<Vec<Option<Cells>>, AllocError>
    ensures same { IfOk result (λ changes.
        with_changes (map cells_of sectors.now) changes.items ≡ map cells_of sectors.now) }
    ensures quiet { IfOk result (λ changes. AreQuiet sectors.now changes.items) }
{
    let mut changes = Vec::with_capacity(alloc, sectors.len())?;
    for sector in sectors {
        changes.push(written_in(sector)?)?;
    }
    Ok(changes)
}

// The cells of the sector, if a command was recorded in its window.
fn written_in(sector: &Sector) -> Result<Option<Cells>, AllocError>
    ensures same { IfOk result (λ change. unwrap_or change sector.now.cells ≡ sector.now.cells) }
    ensures quiet { IfOk result (λ change. change ≡ None → sector.now.entries ≡ []) }
{
    if sector.entries().is_empty() {
        return Ok(None);
    }
    Ok(Some(sector.cells().try_clone()?))
}

/// Puts these cells down one after another, in order, in what changes of the sectors of a world of
/// this size, whose cells are these, in order of their numbers. What is not there of a sector in
/// which one is put down is made by a copy of its cells, which shares what is the same. Positions
/// outside the world are left out. Where memory is wanting, what changes is of no use any more.
pub fn put_in_changes(
    bounds: Bounds,
    cells: &[&Cells],
    changes: &mut [Option<Cells>],
    puts: &[(Pos, Cell)],
) -> Result<(), AllocError>
    requires each { length changes.old ≡ length cells.now }
    requires placed { AreSectors bounds (with_changes (map (λ c. c.now) cells.now) changes.old) }
    ensures put { OnOk result (map_with_changes bounds (map (λ c. c.now) cells.now) changes.new
        ≡ with_cells_on (map_with_changes bounds (map (λ c. c.now) cells.now) changes.old)
        puts.now) }
    ensures quiet { OnOk result ((ss : List SectorData)
        → AreQuiet ss changes.old → AreQuiet ss changes.new) }
{
    let mut left = puts;
    while !left.is_empty() {
        let (together, others) = left.split_at(count_together(bounds, left));
        put_all(bounds, cells, changes, together)?;
        left = others;
    }
    Ok(())
}

// How many of these, from the first on, lie in one sector, or outside the world.
fn count_together(bounds: Bounds, puts: &[(Pos, Cell)]) -> usize
    requires { 0 < length puts.now }
    ensures some { 0 < result }
    ensures within { result ≤ length puts.now }
    ensures together { AreTogether bounds (take result puts.now) }
{
    let sector = bounds.sector_of(puts[0].0);
    let mut count = 1;
    while count < puts.len() && bounds.sector_of(puts[count].0) == sector {
        count += 1;
    }
    count
}

// Puts these cells down one after another in what changes in their sector, if they lie in one.
fn put_all(
    bounds: Bounds,
    cells: &[&Cells],
    changes: &mut [Option<Cells>],
    puts: &[(Pos, Cell)],
) -> Result<(), AllocError>
    requires some { 0 < length puts.now }
    requires together { AreTogether bounds puts.now }
    requires each { length changes.old ≡ length cells.now }
    requires placed { AreSectors bounds (with_changes (map (λ c. c.now) cells.now) changes.old) }
    ensures put { OnOk result (map_with_changes bounds (map (λ c. c.now) cells.now) changes.new
        ≡ with_cells_on (map_with_changes bounds (map (λ c. c.now) cells.now) changes.old)
        puts.now) }
    ensures placed { OnOk result
        (AreSectors bounds (with_changes (map (λ c. c.now) cells.now) changes.new)) }
    ensures quiet { OnOk result ((ss : List SectorData)
        → AreQuiet ss changes.old → AreQuiet ss changes.new) }
{
    let Some(number) = bounds.sector_of(puts[0].0) else {
        return Ok(());
    };
    let at = number as usize;
    let mut changed = taken(&mut changes[at], cells[at])?;
    changed.set_all(puts)?;
    changes[at] = Some(changed);
    Ok(())
}

// Takes what changed of a sector, or else a copy of its cells.
fn taken(change: &mut Option<Cells>, cells: &Cells) -> Result<Cells, AllocError>
    ensures { IfOk result (λ taken. taken ≡ unwrap_or change.old cells.now) }
{
    match change.take() {
        Some(changed) => Ok(changed),
        None => cells.try_clone(),
    }
}

/// What the next window of each sector begins with, judged by copies of this version: copies of the
/// cells that changed, which share what they hold. Where none did there is nothing, if this is the
/// version that judges the windows but for its number.
pub fn all_fresh(
    alloc: Global,
    sectors: &[Sector],
    changes: &[Option<Cells>],
    version: &Version,
    is_same_policy: bool,
) -> Result<Vec<Option<Fresh>>, AllocError>
    requires quiet { AreQuiet sectors.now changes.now }
    requires same { is_same_policy ≡ true
        → All (λ s. record s.version { tick = version.now.tick } ≡ version.now) sectors.now }
    ensures fresh { IfOk result (λ all. nexts version.now.tick sectors.now all.items
        ≡ map (window_over version.now) (with_changes (map cells_of sectors.now) changes.now)) }
    ensures quiet { IfOk result (λ all. AreQuiet sectors.now all.items) }
{
    let mut all = Vec::with_capacity(alloc, sectors.len())?;
    for (at, sector) in sectors.iter().enumerate() {
        all.push(fresh_over(alloc, sector.cells(), &changes[at], version, is_same_policy)?)?;
    }
    Ok(all)
}

/// What a sector whose cells are these begins its next window with, judged by a copy of this
/// version: copies of what changed of them, or of all of them where another policy judges it;
/// nothing where it goes on as it is.
pub fn fresh_over(
    alloc: Global,
    cells: &Cells,
    change: &Option<Cells>,
    version: &Version,
    is_same_policy: bool,
) -> Result<Option<Fresh>, AllocError>
    ensures { IfOk result (λ next. MatchOption next
        ((change.now ≡ None) × (is_same_policy ≡ true))
        (λ fresh. fresh ≡ window_over version.now (unwrap_or change.now cells.now))) }
{
    let cells = match change {
        Some(changed) => changed,
        None if is_same_policy => return Ok(None),
        None => cells,
    };
    let fresh = Fresh::new(alloc, cells.bounds(), cells.sector(), cells, version)?;
    Ok(Some(fresh))
}

/// Puts what changed in the places of these cells. It takes no memory.
pub fn change_all(cells: &mut [Cells], changes: Vec<Option<Cells>>)
    requires { length changes.items ≤ length cells.old }
    ensures { cells.new ≡ with_changes cells.old changes.items }
{
    for (at, change) in changes.into_iter().enumerate() {
        if let Some(change) = change {
            cells[at] = change;
        }
    }
}
