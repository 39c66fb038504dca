ghost use Rattle.std.specs.Prelude.{◌≡◌};
ghost use Rattle.vx_cells.specs.SameCells.{same_cell};

use vx_block::Cell;
use vx_store::encode;

/// Whether both are one cell.
pub fn is_same(a: &Cell, b: &Cell) -> bool
    ensures { result ≡ same_cell a.now b.now }
{
    encode(*a) == encode(*b)
}
