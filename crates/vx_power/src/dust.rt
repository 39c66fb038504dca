//! Dust: where it points, by what it joins.
ghost use Rattle.std.specs.Prelude.{◌≡◌, IfSome};
ghost use Rattle.vx_cells.specs.Maps.{cell_on};
ghost use Rattle.vx_cells.specs.Nearby.{HasAround};
ghost use Rattle.vx_power.specs.Dust.{beside, is_joined, links_up, links_down, joins, points};

use crate::nearby::{beside, has_conductor_over, has_dust_over, has_dust_under};
use vx_block::{Cell, Side};
use vx_cells::{Cells, Frozen};
use vx_geom::Pos;

/// Whether dust at a position points to that side.
pub fn points(map: &Frozen<'_>, p: Pos, side: Side) -> bool
    ensures { result ≡ points (cell_on map.now) p side }
{
    match map.around(p) {
        Some(cells) => points_within(map, cells, p, side),
        None => points_by(map, None, p, side),
    }
}

// Whether it points to that side, read from the sector that has all around it. Side by side, so
// that each is compiled for itself.
#[inline(always)]
fn points_within(map: &Frozen<'_>, cells: &Cells, p: Pos, side: Side) -> bool
    requires { HasAround map.now cells.now p }
    ensures { result ≡ points (cell_on map.now) p side }
{
    match side {
        Side::East => points_by(map, Some(cells), p, Side::East),
        Side::West => points_by(map, Some(cells), p, Side::West),
        Side::South => points_by(map, Some(cells), p, Side::South),
        Side::North => points_by(map, Some(cells), p, Side::North),
    }
}

// Whether it points to that side. `around` is the sector that has all around it, if there is one.
#[inline(always)]
#[tactic(auto, unfolding(crate::specs::Dust::points))]
fn points_by(map: &Frozen<'_>, around: Option<&Cells>, p: Pos, side: Side) -> bool
    requires { IfSome around (λ cells. HasAround map.now cells.now p) }
    ensures { result ≡ points (cell_on map.now) p side }
{
    let right = side.right();
    joins(map, around, p, side)
        || !(joins(map, around, p, right) || joins(map, around, p, right.back()))
}

// Whether dust at a position joins something on that side. What stands beside it is read once.
#[inline(always)]
#[tactic(auto, unfolding(crate::specs::Dust::joins, crate::specs::Dust::links_beside))]
fn joins(map: &Frozen<'_>, around: Option<&Cells>, p: Pos, side: Side) -> bool
    requires { IfSome around (λ cells. HasAround map.now cells.now p) }
    ensures { result ≡ joins (cell_on map.now) p side }
{
    let cell = beside(map, around, p, side);
    cell.is_dust()
        || is_joined(side, &cell)
        || links_up(map, around, p, side)
        || links_down(map, around, p, side, &cell)
}

// Whether it climbs to dust one higher on that side.
#[inline(always)]
#[tactic(auto, unfolding(crate::specs::Dust::links_up))]
fn links_up(map: &Frozen<'_>, around: Option<&Cells>, p: Pos, side: Side) -> bool
    requires { IfSome around (λ cells. HasAround map.now cells.now p) }
    ensures { result ≡ links_up (cell_on map.now) p side }
{
    has_dust_over(map, around, p, side) && !has_conductor_over(map, around, p)
}

// Whether it runs down to dust one lower on that side, past this cell, which stands beside it.
#[inline(always)]
#[tactic(auto, unfolding(crate::specs::Dust::links_down))]
fn links_down(map: &Frozen<'_>, around: Option<&Cells>, p: Pos, side: Side, cell: &Cell) -> bool
    requires around { IfSome around (λ cells. HasAround map.now cells.now p) }
    requires beside { cell.now ≡ cell_on map.now (beside p side) }
    ensures { result ≡ links_down (cell_on map.now) p side }
{
    !cell.conducts() && has_dust_under(map, around, p, side)
}

// Whether dust joins this cell, which stands on that side of it, and is no dust.
fn is_joined(side: Side, cell: &Cell) -> bool
    ensures { result ≡ is_joined side cell.now }
{
    match *cell {
        Cell::Torch { .. } | Cell::Lever { .. } => true,
        Cell::Repeater(repeater) => {
            repeater.facing().is(side) || repeater.facing().is(side.back())
        }
        _ => false,
    }
}
