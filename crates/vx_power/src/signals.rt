//! What feeds power, and which dust and conductors it feeds.
ghost use Rattle.std.specs.Prelude.{◌≡◌, ◌||◌};
ghost use Rattle.vx_cells.specs.Maps.{cell_on};
ghost use Rattle.vx_cells.specs.Nearby.{HasAround};
ghost use Rattle.vx_geom.specs.Dirs.{opposite};
ghost use Rattle.vx_power.specs.Powering.{powers};
ghost use Rattle.vx_power.specs.Signals.{gives, drives, drives_from, is_driven, is_strong, feeds_from, has_feeder};

use crate::nearby::next_nearby;
use vx_block::Cell;
use vx_cells::{Cells, Frozen};
use vx_geom::{Dir, Pos};

/// Whether a cell gives power to its neighbor in that direction.
pub fn gives(cell: Cell, dir: Dir) -> bool
    ensures { result ≡ gives cell dir }
{
    match cell {
        Cell::Torch { facing, lit } => lit && !facing.dir().is(dir),
        Cell::Lever { on, .. } => on,
        Cell::Repeater(repeater) => repeater.is_on() && repeater.facing().dir().is(dir),
        _ => false,
    }
}

/// Whether a cell drives a conductor that is its neighbor in that direction.
pub fn drives(cell: Cell, dir: Dir) -> bool
    ensures { result ≡ drives cell dir }
{
    match cell {
        Cell::Torch { lit, .. } => lit && dir.is(Dir::Up),
        Cell::Lever { facing, on } => on && facing.is(dir),
        Cell::Repeater(repeater) => repeater.is_on() && repeater.facing().dir().is(dir),
        _ => false,
    }
}

/// Whether a cell gives power or drives a conductor in any direction.
pub fn powers(cell: Cell) -> bool
    ensures { result ≡ powers cell }
{
    match cell {
        Cell::Torch { lit, .. } => lit,
        Cell::Lever { on, .. } => on,
        Cell::Repeater(repeater) => repeater.is_on(),
        _ => false,
    }
}

#[tactic(auto, unfolding(crate::specs::Signals::drives_from))]
fn drives_from(map: &Frozen<'_>, p: Pos, dir: Dir) -> bool
    ensures { result ≡ drives_from (cell_on map.now) p dir }
{
    drives(map.beside(p, dir), dir.opposite())
}

/// Whether some neighbor drives what stands at a position.
#[tactic(auto, unfolding(crate::specs::Signals::is_driven))]
pub fn is_driven(map: &Frozen<'_>, p: Pos) -> bool
    ensures { result ≡ is_driven (cell_on map.now) p }
{
    match map.around(p) {
        Some(cells) => is_driven_within(map, cells, p),
        None => Dir::ALL.iter().any(|dir| drives_from(map, p, *dir)),
    }
}

// Whether some neighbor drives the conductor there, read from the sector that has all around it.
// Direction by direction, so that each is compiled for itself.
#[tactic(auto, unfolding(crate::specs::Signals::is_driven))]
fn is_driven_within(map: &Frozen<'_>, cells: &Cells, p: Pos) -> bool
    requires { HasAround map.now cells.now p }
    ensures { result ≡ is_driven (cell_on map.now) p }
{
    drives_within(map, cells, p, Dir::East)
        || drives_within(map, cells, p, Dir::West)
        || drives_within(map, cells, p, Dir::Up)
        || drives_within(map, cells, p, Dir::Down)
        || drives_within(map, cells, p, Dir::South)
        || drives_within(map, cells, p, Dir::North)
}

#[inline(always)]
#[tactic(auto, unfolding(crate::specs::Signals::drives_from))]
fn drives_within(map: &Frozen<'_>, cells: &Cells, p: Pos, dir: Dir) -> bool
    requires { HasAround map.now cells.now p }
    ensures { result ≡ drives_from (cell_on map.now) p dir }
{
    drives(cells.get(next_nearby(map, cells, p, dir)), dir.opposite())
}

#[tactic(auto, unfolding(crate::specs::Signals::feeds_from, crate::specs::Signals::is_strong))]
fn feeds_from(map: &Frozen<'_>, p: Pos, dir: Dir) -> bool
    ensures { result ≡ feeds_from (cell_on map.now) p dir }
{
    match map.next(p, dir) {
        Some(next) => feeds(map, next, &map.cell(next), dir),
        None => false,
    }
}

// Whether this cell, which stands at a position, feeds the dust from which it lies in that
// direction.
#[inline(always)]
#[tactic(auto, unfolding(crate::specs::Signals::is_strong))]
fn feeds(map: &Frozen<'_>, next: Pos, cell: &Cell, dir: Dir) -> bool
    requires { cell.now ≡ cell_on map.now next }
    ensures { result ≡ (gives cell.now (opposite dir) || is_strong (cell_on map.now) next) }
{
    gives(*cell, dir.opposite()) || (cell.conducts() && is_driven(map, next))
}

/// Whether some neighbor feeds dust at a position.
#[tactic(auto, unfolding(crate::specs::Signals::has_feeder))]
pub fn has_feeder(map: &Frozen<'_>, p: Pos) -> bool
    ensures { result ≡ has_feeder (cell_on map.now) p }
{
    match map.around(p) {
        Some(cells) => has_feeder_within(map, cells, p),
        None => Dir::ALL.iter().any(|dir| feeds_from(map, p, *dir)),
    }
}

/// Whether some neighbor feeds dust at a position, read from the sector that has all around it.
#[tactic(auto, unfolding(crate::specs::Signals::has_feeder))]
pub fn has_feeder_within(map: &Frozen<'_>, cells: &Cells, p: Pos) -> bool
    requires { HasAround map.now cells.now p }
    ensures { result ≡ has_feeder (cell_on map.now) p }
{
    feeds_within(map, cells, p, Dir::East)
        || feeds_within(map, cells, p, Dir::West)
        || feeds_within(map, cells, p, Dir::Up)
        || feeds_within(map, cells, p, Dir::Down)
        || feeds_within(map, cells, p, Dir::South)
        || feeds_within(map, cells, p, Dir::North)
}

#[inline(always)]
#[tactic(auto, unfolding(crate::specs::Signals::feeds_from, crate::specs::Signals::is_strong))]
fn feeds_within(map: &Frozen<'_>, cells: &Cells, p: Pos, dir: Dir) -> bool
    requires { HasAround map.now cells.now p }
    ensures { result ≡ feeds_from (cell_on map.now) p dir }
{
    let next = next_nearby(map, cells, p, dir);
    feeds(map, next, &cells.get(next), dir)
}
