ghost use Rattle.std.specs.Prelude.{◌≡◌};
ghost use Rattle.vx_cells.specs.Maps.{cell_on};
ghost use Rattle.vx_part.specs.Parts.{next_part};

use crate::standing::Standing;
use vx_block::Cell;
use vx_cells::Frozen;
use vx_geom::Pos;
use vx_part::next_part;
use vx_power::Leveled;

/// A map as it is when each component has become its next part, told by the map before.
#[derive(Drop)]
pub struct NextParts<'a, L> {
    /// The map as the tick begins.
    pub map: &'a Frozen<'a>,
    /// The levels of its dust.
    pub levels: &'a L,
}

impl<L: Leveled> Standing for NextParts<'_, L> {
    ghost stands = { λ next. next_part (cell_on next.map.now) (L.level next.levels.now) };

    fn at(&self, p: Pos) -> Cell {
        next_part(self.map, self.levels, p)
    }
}
