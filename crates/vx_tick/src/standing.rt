ghost use Rattle.std.specs.Prelude.{◌≡◌};
ghost use Rattle.vx_block.specs.declared.cell.Cell.{Cell};
ghost use Rattle.vx_cells.specs.Maps.{cell_on};
ghost use Rattle.vx_geom.specs.declared.pos.Pos.{Pos};

use vx_block::Cell;
use vx_cells::Frozen;
use vx_geom::Pos;

/// What tells what stands at each position.
pub trait Standing {
    /// The cell at each position.
    ghost stands: { Self → Pos → Cell };

    /// The cell at a position; air outside the world. It takes no memory.
    fn at(&self, p: Pos) -> Cell
        ensures { result ≡ stands self.now p };
}

impl Standing for Frozen<'_> {
    ghost stands = { cell_on };

    fn at(&self, p: Pos) -> Cell {
        self.cell(p)
    }
}
