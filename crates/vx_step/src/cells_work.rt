ghost use Rattle.std.specs.Prelude.{◌≡◌, if◌then◌else◌, length, slice_index_or, OnOk};
ghost use Rattle.vx_cells.specs.SectorCells.{SectorCells, holds, with_cell};
ghost use Rattle.vx_step.specs.Shares.{with_own};

use crate::work::Work;
use std::alloc::{AllocError, Global};
use vx_block::Cell;
use vx_cells::Cells;
use vx_geom::Pos;
use vx_tick::Phase;

/// The sectors with their next parts.
#[derive(Drop)]
pub struct CellsWork<'a> {
    cells: &'a [Cells],
    changes: &'a [Vec<(Pos, Cell)>],
    sectors: u32,
    ghost all_cells: { length cells.now ≡ sectors },
    ghost all_changes: { length changes.now ≡ sectors },
}

impl<'a> CellsWork<'a> {
    /// The work on so many sectors, with the changes of each.
    pub fn new(cells: &'a [Cells], changes: &'a [Vec<(Pos, Cell)>], sectors: u32) -> CellsWork<'a>
        requires { (length cells.now ≡ sectors) × (length changes.now ≡ sectors) }
        ensures cells { result.cells.now ≡ cells.now }
        ensures changes { result.changes.now ≡ changes.now }
        ensures sectors { result.sectors ≡ sectors }
    {
        CellsWork {
            cells,
            changes,
            sectors,
        }
    }
}

impl Work for CellsWork<'_> {
    type Out = Cells;

    ghost count = { λ work. work.sectors };

    ghost gives = { λ work sector next. (c : SectorCells) (v : _)
        → next ≡ with_own (slice_index_or work.cells.now sector c)
        (slice_index_or work.changes.now sector v).items };

    fn sectors(&self) -> u32 {
        self.sectors
    }

    fn phase(&self) -> Phase {
        Phase::Cells
    }

    fn piece(&self, _alloc: Global, sector: u32) -> Result<Cells, AllocError> {
        let mut next = self.cells[sector as usize].try_clone()?;
        put_all(&mut next, self.changes[sector as usize].as_slice())?;
        Ok(next)
    }
}

// Puts those of these cells down that lie in the sector, one after another.
fn put_all(cells: &mut Cells, puts: &[(Pos, Cell)]) -> Result<(), AllocError>
    ensures { OnOk result (cells.new ≡ with_own cells.old puts.now) }
{
    for (p, cell) in puts {
        put(cells, *p, *cell)?;
    }
    Ok(())
}

// Puts a cell down, if it lies in the sector.
fn put(cells: &mut Cells, p: Pos, cell: Cell) -> Result<(), AllocError>
    ensures { OnOk result (cells.new ≡ (if holds cells.old p then with_cell cells.old p cell
        else cells.old)) }
{
    if !cells.holds(p) {
        return Ok(());
    }
    cells.set(p, cell)
}
