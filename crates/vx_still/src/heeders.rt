//! Marks the devices that heed what stands at a position.
ghost use Rattle.std.specs.Prelude.{◌≡◌, ◌||◌, false, OnOk, IfOk, IfSome};
ghost use Rattle.vx_block.specs.Components.{is_device};
ghost use Rattle.vx_cells.specs.Maps.{cell_on};
ghost use Rattle.vx_cells.specs.Nearby.{HasAround};
ghost use Rattle.vx_geom.specs.Neighbor.{neighbor};
ghost use Rattle.vx_places.specs.Places.{is_at};
ghost use Rattle.vx_still.specs.Telling.{AreMarkedFrom, AreMarkedBeside, IsMarked, HasHeeders, KeepsMarks};
ghost use Rattle.vx_still.specs.Unheeded.{NoneBeside};

use std::alloc::{AllocError, Global};
use vx_block::Cell;
use vx_cells::{Cells, Frozen};
use vx_geom::{Dir, Pos};
use vx_places::Places;
use vx_power::{is_next_idle, next_cell};

/// Marks these positions and the devices that heed what stands there.
pub(crate) fn mark_all_heeders(
    alloc: Global,
    map: &Frozen<'_>,
    places: &mut Places,
    positions: &[Pos],
) -> Result<(), AllocError>
    requires sizes { places.old.sizes ≡ map.now.sizes }
    ensures sizes { OnOk result (places.new.sizes ≡ places.old.sizes) }
    ensures kept { OnOk result (KeepsMarks places.old places.new) }
    ensures marked { OnOk result (AreMarkedFrom map.now places.new positions.now) }
{
    for p in positions {
        mark_with_heeders(alloc, map, places, *p)?;
    }
    Ok(())
}

// Marks one of them, and the devices that heed what stands there.
fn mark_with_heeders(
    alloc: Global,
    map: &Frozen<'_>,
    places: &mut Places,
    p: Pos,
) -> Result<(), AllocError>
    requires sizes { places.old.sizes ≡ map.now.sizes }
    ensures sizes { OnOk result (places.new.sizes ≡ places.old.sizes) }
    ensures kept { OnOk result (KeepsMarks places.old places.new) }
    ensures marked { OnOk result (HasHeeders map.now places.new p) }
{
    places.mark(alloc, p)?;
    mark_heeders(alloc, map, places, p)?;
    Ok(())
}

/// Marks the devices that heed what stands at a position: those beside it, and those beside a
/// conductor that is beside it. Where a device stands there, it is marked already. It says whether
/// there are any.
// Direction by direction, so that each is compiled for itself.
pub(crate) fn mark_heeders(
    alloc: Global,
    map: &Frozen<'_>,
    places: &mut Places,
    p: Pos,
) -> Result<bool, AllocError>
    requires sizes { places.old.sizes ≡ map.now.sizes }
    requires own { IsMarked map.now places.old p }
    ensures sizes { OnOk result (places.new.sizes ≡ places.old.sizes) }
    ensures kept { OnOk result (KeepsMarks places.old places.new) }
    ensures marked { OnOk result (HasHeeders map.now places.new p) }
    ensures none { IfOk result (λ any. any ≡ false → (dir : Dir) → NoneBeside map.now p dir) }
{
    let around = map.around(p);
    let east = mark_towards(alloc, map, around, places, p, Dir::East)?;
    let west = mark_towards(alloc, map, around, places, p, Dir::West)?;
    let up = mark_towards(alloc, map, around, places, p, Dir::Up)?;
    let down = mark_towards(alloc, map, around, places, p, Dir::Down)?;
    let south = mark_towards(alloc, map, around, places, p, Dir::South)?;
    let north = mark_towards(alloc, map, around, places, p, Dir::North)?;
    Ok(any_of(east, west, up, down, south, north))
}

// Marks those in one direction.
#[inline(always)]
fn mark_towards(
    alloc: Global,
    map: &Frozen<'_>,
    around: Option<&Cells>,
    places: &mut Places,
    p: Pos,
    dir: Dir,
) -> Result<bool, AllocError>
    requires around { IfSome around (λ cells. HasAround map.now cells.now p) }
    requires sizes { places.old.sizes ≡ map.now.sizes }
    ensures sizes { OnOk result (places.new.sizes ≡ places.old.sizes) }
    ensures kept { OnOk result (KeepsMarks places.old places.new) }
    ensures marked { OnOk result (AreMarkedBeside map.now places.new p dir) }
    ensures none { IfOk result (λ any. any ≡ false → NoneBeside map.now p dir) }
{
    if is_next_idle(map, around, p, dir) {
        return Ok(false);
    }
    let Some((next, cell)) = next_cell(map, around, p, dir) else {
        return Ok(false);
    };
    let here = mark_device(alloc, map, places, next, &cell)?;
    if cell.conducts() {
        let behind = mark_beside(alloc, map, places, next)?;
        return Ok(either(here, behind));
    }
    Ok(here)
}

// Marks the devices beside a position in each direction.
fn mark_beside(
    alloc: Global,
    map: &Frozen<'_>,
    places: &mut Places,
    p: Pos,
) -> Result<bool, AllocError>
    requires sizes { places.old.sizes ≡ map.now.sizes }
    ensures sizes { OnOk result (places.new.sizes ≡ places.old.sizes) }
    ensures kept { OnOk result (KeepsMarks places.old places.new) }
    ensures marked { OnOk result ((dir : Dir) → IsMarked map.now places.new (neighbor p dir)) }
    ensures none { IfOk result (λ any. any ≡ false
        → (dir : Dir) → is_device (cell_on map.now (neighbor p dir)) ≡ false) }
{
    let around = map.around(p);
    let east = mark_next(alloc, map, around, places, p, Dir::East)?;
    let west = mark_next(alloc, map, around, places, p, Dir::West)?;
    let up = mark_next(alloc, map, around, places, p, Dir::Up)?;
    let down = mark_next(alloc, map, around, places, p, Dir::Down)?;
    let south = mark_next(alloc, map, around, places, p, Dir::South)?;
    let north = mark_next(alloc, map, around, places, p, Dir::North)?;
    Ok(any_of(east, west, up, down, south, north))
}

// Marks the one beside a position in that direction, if a device stands there.
#[inline(always)]
fn mark_next(
    alloc: Global,
    map: &Frozen<'_>,
    around: Option<&Cells>,
    places: &mut Places,
    p: Pos,
    dir: Dir,
) -> Result<bool, AllocError>
    requires around { IfSome around (λ cells. HasAround map.now cells.now p) }
    requires sizes { places.old.sizes ≡ map.now.sizes }
    ensures sizes { OnOk result (places.new.sizes ≡ places.old.sizes) }
    ensures kept { OnOk result (KeepsMarks places.old places.new) }
    ensures marked { OnOk result (IsMarked map.now places.new (neighbor p dir)) }
    ensures none { IfOk result (λ any. any ≡ false
        → is_device (cell_on map.now (neighbor p dir)) ≡ false) }
{
    if is_next_idle(map, around, p, dir) {
        return Ok(false);
    }
    let Some((next, cell)) = next_cell(map, around, p, dir) else {
        return Ok(false);
    };
    mark_device(alloc, map, places, next, &cell)
}

// Marks a position if this cell, which stands there, is a device, and says whether it is.
#[inline(always)]
fn mark_device(
    alloc: Global,
    map: &Frozen<'_>,
    places: &mut Places,
    p: Pos,
    cell: &Cell,
) -> Result<bool, AllocError>
    requires sizes { places.old.sizes ≡ map.now.sizes }
    requires cell { cell.now ≡ cell_on map.now p }
    ensures sizes { OnOk result (places.new.sizes ≡ places.old.sizes) }
    ensures kept { OnOk result (KeepsMarks places.old places.new) }
    ensures marked { OnOk result (IsMarked map.now places.new p) }
    ensures none { IfOk result (λ is. is ≡ false → is_device (cell_on map.now p) ≡ false) }
{
    let _there = map;
    if !cell.is_device() {
        return Ok(false);
    }
    places.mark(alloc, p)?;
    Ok(true)
}

#[inline(always)]
fn any_of(east: bool, west: bool, up: bool, down: bool, south: bool, north: bool) -> bool
    ensures { result ≡ (((east || west) || (up || down)) || (south || north)) }
{
    either(
        either(either(east, west), either(up, down)),
        either(south, north),
    )
}

#[inline(always)]
fn either(a: bool, b: bool) -> bool
    ensures { result ≡ (a || b) }
{
    a || b
}
