//! Cells put down on the sectors of a world that stand in a slice.
ghost use Rattle.std.specs.Prelude.{◌≡◌, ◌≢◌, true, false, Some, None, Ok, OnOk};
ghost use Rattle.vx_cells.specs.Maps.{AreSectors};
ghost use Rattle.vx_cells.specs.Wholes.{with_cell_on, with_cells_on};

use crate::cells::Cells;
use std::alloc::AllocError;
use vx_block::Cell;
use vx_geom::{Bounds, Pos};

/// Puts these cells down one after another on the sectors of a world of this size, and leaves out
/// those outside it. Where memory is wanted, the first of them may be put down.
pub fn set_all(
    bounds: Bounds,
    sectors: &mut [Cells],
    cells: &[(Pos, Cell)],
) -> Result<(), AllocError>
    requires { AreSectors bounds sectors.old }
    ensures set { OnOk result (record { sizes = bounds; sectors = sectors.new }
        ≡ with_cells_on (record { sizes = bounds; sectors = sectors.old }) cells.now) }
    ensures placed { AreSectors bounds sectors.new }
{
    for (p, cell) in cells {
        set(bounds, sectors, *p, *cell)?;
    }
    Ok(())
}

// Puts a cell down at a position, in place of what was there before; a chest begins empty.
// `Ok(false)` outside the world.
#[tactic(auto, unfolding(crate::specs::Wholes::with_cell_on))]
pub(crate) fn set(
    bounds: Bounds,
    sectors: &mut [Cells],
    p: Pos,
    cell: Cell,
) -> Result<bool, AllocError>
    requires { AreSectors bounds sectors.old }
    ensures set { result ≡ Ok true
        → with_cell_on (record { sizes = bounds; sectors = sectors.old }) p cell
        ≡ Some (record { sizes = bounds; sectors = sectors.new }) }
    ensures outside { result ≡ Ok false
        → with_cell_on (record { sizes = bounds; sectors = sectors.old }) p cell ≡ None }
    ensures kept { result ≢ Ok true → sectors.new ≡ sectors.old }
    ensures placed { AreSectors bounds sectors.new }
{
    let Some(number) = bounds.sector_of(p) else {
        return Ok(false);
    };
    sectors[number as usize].set(p, cell)?;
    Ok(true)
}
