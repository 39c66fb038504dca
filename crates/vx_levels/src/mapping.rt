//! The levels and the links of all dust of a map.
ghost use Rattle.std.specs.Prelude.{◌≡◌, true, List, [], ◌∷◌, ◌++◌, OnOk, IfOk};
ghost use Rattle.vx_block.specs.Components.{is_dust};
ghost use Rattle.vx_cells.specs.Maps.{cell_on};
ghost use Rattle.vx_geom.specs.declared.pos.Pos.{Pos};
ghost use Rattle.vx_levels.specs.Repairs.{IsRight, IsRightAt};
ghost use Rattle.vx_power.specs.Levels.{AreAllLevels, has, level_in};

use crate::linked_levels::LinkedLevels;
use crate::links::links_of;
use crate::repairing::lies;
use std::alloc::{AllocError, Global};
use vx_cells::Frozen;
use vx_geom::Pos;
use vx_power::{Leveled, Levels, all_levels};

/// The levels and the links of all dust of a map, whose positions are among these. It costs a look
/// at each, and at what the devices of the map feed.
pub fn all_linked(
    alloc: Global,
    map: &Frozen<'_>,
    places: &[Pos],
) -> Result<LinkedLevels, AllocError>
    requires { (p : Pos) → is_dust (cell_on map.now p) ≡ true → has places.now p ≡ true }
    ensures { IfOk result (λ linked. IsRight (cell_on map.now) linked) }
{
    let levels = all_levels(alloc, map)?;
    let mut linked = LinkedLevels::new(alloc);
    add_all(&mut linked, map, &levels, places)?;
    Ok(linked)
}

// Adds the dust at these positions.
fn add_all(
    linked: &mut LinkedLevels,
    map: &Frozen<'_>,
    levels: &Levels,
    places: &[Pos],
) -> Result<(), AllocError>
    requires { AreAllLevels map.now (level_in levels.now) }
    ensures { OnOk result ((done : List Pos) → IsRightAt (cell_on map.now) linked.old done
        → IsRightAt (cell_on map.now) linked.new (done ++ places.now)) }
{
    for p in places {
        add(linked, map, levels, *p)?;
    }
    Ok(())
}

// Adds the dust at a position, if it is dust.
fn add(
    linked: &mut LinkedLevels,
    map: &Frozen<'_>,
    levels: &Levels,
    p: Pos,
) -> Result<(), AllocError>
    requires { AreAllLevels map.now (level_in levels.now) }
    ensures { OnOk result ((done : List Pos) → IsRightAt (cell_on map.now) linked.old done
        → IsRightAt (cell_on map.now) linked.new (done ++ p ∷ [])) }
{
    if !lies(map, p) {
        return Ok(());
    }
    linked.put_links(p, links_of(map, p))?;
    linked.put(p, levels.at(p))
}
