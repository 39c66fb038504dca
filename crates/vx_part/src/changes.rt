//! What a tick changes in a sector, pistons left out.
ghost use Rattle.std.specs.Prelude.{◌≡◌, ◌<◌, IfOk};
ghost use Rattle.vx_cells.specs.Maps.{cell_on};
ghost use Rattle.vx_geom.specs.Places.{positions};
ghost use Rattle.vx_geom.specs.Sizes.{sector_count};
ghost use Rattle.vx_part.specs.Changes.{change_at, changes};
ghost use Rattle.vx_power.specs.Laws.{dust_level};
ghost use Rattle.vx_power.specs.Levels.{AreLevels};

use crate::parts::next_of;
use std::alloc::{AllocError, Global};
use vx_block::Cell;
use vx_cells::{Frozen, is_same};
use vx_geom::Pos;
use vx_power::Leveled;

/// The cells of a sector that are others after the tick, pistons left out, each beside its
/// position, in order. It costs what the components of the sector are. They are those of the rules
/// where the levels are those of this map near the sector, as `vx_power::levels` tells them.
pub fn next_parts<L: Leveled>(
    alloc: Global,
    map: &Frozen<'_>,
    levels: &L,
    sector: u32,
) -> Result<Vec<(Pos, Cell)>, AllocError>
    requires { sector < sector_count map.now.sizes }
    ensures by_levels { IfOk result (λ found. found.items
        ≡ changes (cell_on map.now) (L.level levels.now) (positions map.now.sizes sector)) }
    ensures exact { AreLevels map.now sector (L.level levels.now)
        → IfOk result (λ found. found.items ≡ changes (cell_on map.now)
        (dust_level (cell_on map.now)) (positions map.now.sizes sector)) }
{
    map.soundness();
    let components = map.components(alloc, sector)?;
    changes_among(alloc, map, levels, components.as_slice())
}

// The cells at these positions that are others after the tick, pistons left out, each beside its
// position, in their order.
fn changes_among<L: Leveled>(
    alloc: Global,
    map: &Frozen<'_>,
    levels: &L,
    positions: &[Pos],
) -> Result<Vec<(Pos, Cell)>, AllocError>
    ensures { IfOk result (λ found. found.items
        ≡ changes (cell_on map.now) (L.level levels.now) positions.now) }
{
    let mut found = Vec::new(alloc);
    for p in positions {
        if let Some(cell) = change(map, levels, *p, &map.cell(*p)) {
            found.push((*p, cell))?;
        }
    }
    Ok(found)
}

/// What this cell, which stands at a position, is after the tick, pistons left out, where that is
/// another cell. It takes no memory.
#[tactic(auto, unfolding(crate::specs::Changes::change_at))]
pub fn change<L: Leveled>(map: &Frozen<'_>, levels: &L, p: Pos, cell: &Cell) -> Option<Cell>
    requires { cell.now ≡ cell_on map.now p }
    ensures { result ≡ change_at (cell_on map.now) (L.level levels.now) p }
{
    let next = next_of(map, levels, p, *cell);
    if is_same(&next, cell) {
        return None;
    }
    Some(next)
}
