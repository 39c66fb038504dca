//! The sectors of a world, from one window to the next.
ghost use Rattle.std.specs.Prelude.{◌≡◌, ◌≤◌, [], None, length, map, IfOk};
ghost use Rattle.std.specs.Vec.{vec_capacity};
ghost use Rattle.vx_sector.specs.Windows.{renewed};
ghost use Rattle.vx_windows.specs.Sectors.{AreOf, AreQuiet, IsOf, cells_of, next_of, nexts, opened_by, renewed_each, entries_in, entries_of};

use std::alloc::{AllocError, Global};
use vx_cells::Cells;
use vx_policy::Version;
use vx_sector::{Entry, Fresh, Sector};

/// The sectors of these cells in their first windows, judged by copies of this version. The cells
/// are taken, and each shares what it holds with its base.
pub fn open_sectors(
    alloc: Global,
    cells: Vec<Cells>,
    version: &Version,
) -> Result<Vec<Sector>, AllocError>
    ensures { IfOk result (λ sectors. sectors.items ≡ map (opened_by version.now) cells.items) }
{
    let mut sectors = Vec::with_capacity(alloc, cells.len())?;
    for cells in cells {
        sectors.push(Sector::new(Fresh::over(alloc, cells, version)?))?;
    }
    Ok(sectors)
}

/// The cells of each sector, in order, where they stand: none are copied.
pub fn cells_of<'a>(alloc: Global, sectors: &'a [Sector]) -> Result<Vec<&'a Cells>, AllocError>
    ensures { IfOk result (λ cells.
        map (λ c. c.now) cells.items ≡ map cells_of sectors.now) }
{
    let mut cells = Vec::with_capacity(alloc, sectors.len())?;
    for sector in sectors {
        cells.push(sector.cells())?;
    }
    Ok(cells)
}

/// Begins the next window of each sector, in order, and hands out the records of the windows that
/// this closes, in the list that is handed in. A sector for which there is nothing goes on over its
/// cells as they are, by the same policy under this number. It takes no memory.
pub fn renew_sectors(
    sectors: &mut [Sector],
    fresh: Vec<Option<Fresh>>,
    tick: u64,
    mut windows: Vec<Vec<Entry>>,
) -> Vec<Vec<Entry>>
    requires fresh { AreOf sectors.old (nexts tick sectors.old fresh.items) }
    requires quiet { AreQuiet sectors.old fresh.items }
    requires room { (windows.items ≡ []) × (length sectors.old ≤ vec_capacity windows) }
    ensures renewed { sectors.new ≡ renewed_each sectors.old (nexts tick sectors.old fresh.items) }
    ensures windows { map entries_in result.items ≡ map entries_of sectors.old }
{
    let alloc = *windows.allocator();
    for next in fresh {
        let closed = renew(alloc, &mut sectors[windows.len()], next, tick);
        windows.push_reserved(closed);
    }
    windows
}

// Begins the next window of a sector with this, or goes on over its cells as they are, by the same
// policy under this number, where nothing was recorded.
fn renew(alloc: Global, sector: &mut Sector, next: Option<Fresh>, tick: u64) -> Vec<Entry>
    requires fresh { IsOf sector.old (next_of tick sector.old next) }
    requires quiet { next ≡ None → sector.old.entries ≡ [] }
    ensures renewed { sector.new ≡ renewed sector.old (next_of tick sector.old next) }
    ensures window { entries_in result ≡ entries_of sector.old }
{
    match next {
        Some(fresh) => sector.renew(fresh),
        None => {
            sector.go_on(tick);
            Vec::new(alloc)
        }
    }
}
