//! Which dust a part feeds, or would feed were it on.
ghost use Rattle.std.specs.Prelude.{◌≡◌, ◌++◌, OnOk};
ghost use Rattle.std.specs.Option.{option_to_list};
ghost use Rattle.vx_cells.specs.Maps.{cell_on};
ghost use Rattle.vx_power.specs.Spreading.{dust_at, each_dir, fed_towards, fed_from, fed_by};
ghost use Rattle.vx_power.specs.Turning.{all_on, turned_on};

use crate::next_dust::{driven, dust_at, dust_given};
use std::alloc::AllocError;
use vx_block::{Cell, Repeater};
use vx_cells::Frozen;
use vx_geom::{Dir, Pos};

/// Adds the dust that the parts at these positions would feed, were they on.
pub fn add_all_fed(list: &mut Vec<Pos>, map: &Frozen<'_>, parts: &[Pos]) -> Result<(), AllocError>
    ensures { OnOk result (list.new.items ≡ list.old.items
        ++ fed_by (all_on (cell_on map.now)) parts.now) }
{
    for p in parts {
        add_fed(list, map, *p)?;
    }
    Ok(())
}

// Adds the dust that one of them would feed. Direction by direction, so that each is compiled for
// itself.
#[tactic(auto, unfolding(crate::specs::Spreading::fed_from))]
fn add_fed(list: &mut Vec<Pos>, map: &Frozen<'_>, p: Pos) -> Result<(), AllocError>
    ensures { OnOk result (list.new.items ≡ list.old.items
        ++ fed_from (all_on (cell_on map.now)) p) }
{
    let cell = turned_on(map.cell(p));
    add_fed_towards(list, map, &cell, p, Dir::East)?;
    add_fed_towards(list, map, &cell, p, Dir::West)?;
    add_fed_towards(list, map, &cell, p, Dir::Up)?;
    add_fed_towards(list, map, &cell, p, Dir::Down)?;
    add_fed_towards(list, map, &cell, p, Dir::South)?;
    add_fed_towards(list, map, &cell, p, Dir::North)
}

// Adds the dust that it would feed in one direction.
#[inline(always)]
fn add_fed_towards(
    list: &mut Vec<Pos>,
    map: &Frozen<'_>,
    cell: &Cell,
    p: Pos,
    dir: Dir,
) -> Result<(), AllocError>
    requires { cell.now ≡ turned_on (cell_on map.now p) }
    ensures { OnOk result (list.new.items ≡ list.old.items
        ++ fed_towards (all_on (cell_on map.now)) p dir) }
{
    add_found(list, dust_given(map, cell, p, dir))?;
    match driven(map, cell, p, dir) {
        Some(block) => add_around(list, map, block),
        None => Ok(()),
    }
}

// Adds the dust beside a position in each direction.
fn add_around(list: &mut Vec<Pos>, map: &Frozen<'_>, p: Pos) -> Result<(), AllocError>
    ensures { OnOk result (list.new.items ≡ list.old.items
        ++ each_dir (dust_at (cell_on map.now) p)) }
{
    for dir in Dir::ALL {
        add_found(list, dust_at(map, p, dir))?;
    }
    Ok(())
}

// Adds a position, if there is one.
#[inline(always)]
fn add_found(list: &mut Vec<Pos>, found: Option<Pos>) -> Result<(), AllocError>
    ensures { OnOk result (list.new.items ≡ list.old.items ++ option_to_list found) }
{
    if let Some(p) = found {
        list.push(p)?;
    }
    Ok(())
}

// A cell that is on, if it is one that can be.
fn turned_on(cell: Cell) -> Cell
    ensures { result ≡ turned_on cell }
{
    match cell {
        Cell::Torch { facing, .. } => Cell::Torch { facing, lit: true },
        Cell::Lever { facing, .. } => Cell::Lever { facing, on: true },
        Cell::Repeater(repeater) => Cell::Repeater(Repeater::new(
            repeater.facing(),
            repeater.delay(),
            true,
            repeater.wait(),
        )),
        other => other,
    }
}
