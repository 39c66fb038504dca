//! What each part is after a tick.
ghost use Rattle.std.specs.Prelude.{◌≡◌, not};
ghost use Rattle.vx_block.specs.States.{mount_dir};
ghost use Rattle.vx_cells.specs.Maps.{cell_on};
ghost use Rattle.vx_geom.specs.Neighbor.{neighbor};
ghost use Rattle.vx_power.specs.Laws.{dust_level};
ghost use Rattle.vx_power.specs.Local.{AreLevelsNear};
ghost use Rattle.vx_power.specs.Signals.{is_powered};
ghost use Rattle.vx_part.specs.Parts.{next_lamp, next_of, next_part};

use crate::repeaters::next_repeater;
use vx_block::{Cell, Lamp, Level, Mount};
use vx_cells::Frozen;
use vx_geom::Pos;
use vx_power::{Leveled, active, powered};

/// What stands at a position after the tick, by the map as it begins and the level of its dust.
/// What is no part stays, and so do pistons, which moves change. It is as the rules say where the
/// levels near are those of the map, and takes no memory.
pub fn next_part<L: Leveled>(map: &Frozen<'_>, levels: &L, p: Pos) -> Cell
    ensures by_levels { result ≡ next_part (cell_on map.now) (L.level levels.now) p }
    ensures exact { AreLevelsNear (cell_on map.now) 2 p (L.level levels.now)
        → result ≡ next_part (cell_on map.now) (dust_level (cell_on map.now)) p }
{
    next_of(map, levels, p, map.cell(p))
}

/// What this cell is after the tick, which stands at the position.
#[tactic(auto, unfolding(crate::specs::Parts::next_of))]
pub fn next_of<L: Leveled>(map: &Frozen<'_>, levels: &L, p: Pos, cell: Cell) -> Cell
    ensures { result ≡ next_of (cell_on map.now) (L.level levels.now) p cell }
{
    match cell {
        Cell::Dust(_) => Cell::Dust(Level::new(levels.at(p))),
        Cell::Torch { facing, .. } => Cell::Torch {
            facing,
            lit: !is_block_powered(map, levels, p, facing),
        },
        Cell::Lamp(lamp) => Cell::Lamp(next_lamp(lamp, active(map, levels, p, None))),
        Cell::Repeater(repeater) => Cell::Repeater(next_repeater(map, levels, p, repeater)),
        other => other,
    }
}

// Whether the block that a torch is mounted on is a powered conductor.
#[tactic(auto, unfolding(vx_power::specs::Signals::is_powered))]
fn is_block_powered<L: Leveled>(map: &Frozen<'_>, levels: &L, p: Pos, facing: Mount) -> bool
    ensures { result
        ≡ is_powered (cell_on map.now) (L.level levels.now) (neighbor p (mount_dir facing)) }
{
    match map.next(p, facing.dir()) {
        Some(block) => powered(map, levels, block),
        None => false,
    }
}

fn next_lamp(lamp: Lamp, is_active: bool) -> Lamp
    ensures { result ≡ next_lamp lamp is_active }
{
    match lamp {
        _ if is_active => Lamp::Lit,
        Lamp::Lit => Lamp::Cooling,
        Lamp::Off | Lamp::Cooling => Lamp::Off,
    }
}
