//! Positions close to one, where one sector has all around it.
ghost use Rattle.std.specs.Prelude.{◌≡◌, ◌≤◌, pos, unsigned_abs, true, false, None, IfSome};
ghost use Rattle.vx_block.specs.declared.cell.Cell.TheVariants.{Air};
ghost use Rattle.vx_block.specs.Components.{is_component, is_device, is_dust};
ghost use Rattle.vx_block.specs.Conductors.{conducts};
ghost use Rattle.vx_cells.specs.Maps.{cell_on};
ghost use Rattle.vx_cells.specs.Nearby.{HasAround, IsClose};
ghost use Rattle.vx_cells.specs.SectorCells.{holds, cell_at};
ghost use Rattle.vx_geom.specs.declared.pos.Pos.{Pos};
ghost use Rattle.vx_geom.specs.Neighbor.{neighbor};
ghost use Rattle.vx_power.specs.Dust.{beside, over, under};

use crate::places::{place_beside, place_over, place_under};
use vx_block::{Cell, Side};
use vx_cells::{Cells, Frozen};
use vx_geom::{Dir, Pos};

/// The next position in that direction. It is of the sector that has all around this one.
#[inline(always)]
pub fn next_nearby(map: &Frozen<'_>, cells: &Cells, p: Pos, dir: Dir) -> Pos
    requires { HasAround map.now cells.now p }
    ensures value { result ≡ neighbor p dir }
    ensures held { holds cells.now result ≡ true }
    ensures cell { cell_at cells.now result ≡ cell_on map.now result }
{
    map.soundness();
    p.step(dir).unwrap()
}

/// The next position in that direction and what stands there; `None` outside the world. `around` is
/// the sector that has all around this one, if there is one: then it is read from that.
#[inline(always)]
#[tactic(auto, using(vx_base::proofs::Signed::signed))]
pub fn next_cell(map: &Frozen<'_>, around: Option<&Cells>, p: Pos, dir: Dir) -> Option<(Pos, Cell)>
    requires { IfSome around (λ cells. HasAround map.now cells.now p) }
    ensures next { IfSome result (λ next. next.0 ≡ neighbor p dir) }
    ensures cell { IfSome result (λ next. next.1 ≡ cell_on map.now (neighbor p dir)) }
    ensures outside { result ≡ None → cell_on map.now (neighbor p dir) ≡ Air }
{
    if let Some(cells) = around {
        let next = next_nearby(map, cells, p, dir);
        return Some((next, cells.get(next)));
    }
    let next = map.next(p, dir)?;
    Some((next, map.cell(next)))
}

/// What stands beside a position on that side; air outside the world. `around` is the sector that
/// has all around the position, if there is one: then it is read from that. So it is below.
#[inline(always)]
#[tactic(auto, using(crate::proofs::Stepping::around_place, vx_cells::proofs::Nearby::close_beside))]
pub fn beside(map: &Frozen<'_>, around: Option<&Cells>, p: Pos, side: Side) -> Cell
    requires { IfSome around (λ cells. HasAround map.now cells.now p) }
    ensures { result ≡ cell_on map.now (beside p side) }
{
    map.soundness();
    match around {
        Some(cells) => cells.get(place_beside(p, side)),
        None => map.beside(p, side.dir()),
    }
}

/// Whether dust lies over what is beside a position on that side.
#[inline(always)]
#[tactic(auto, using(crate::proofs::Stepping::around_place, crate::proofs::Close::close_over))]
pub fn has_dust_over(map: &Frozen<'_>, around: Option<&Cells>, p: Pos, side: Side) -> bool
    requires { IfSome around (λ cells. HasAround map.now cells.now p) }
    ensures { result ≡ is_dust (cell_on map.now (over (beside p side))) }
{
    map.soundness();
    if let Some(cells) = around {
        return cells.has_dust(place_over(p, side));
    }
    match map.next_above(p, side.dir()) {
        Some(over) => map.has_dust(over),
        None => false,
    }
}

/// Whether dust lies under what is beside a position on that side.
#[inline(always)]
#[tactic(auto, using(crate::proofs::Stepping::around_place, crate::proofs::Close::close_under))]
pub fn has_dust_under(map: &Frozen<'_>, around: Option<&Cells>, p: Pos, side: Side) -> bool
    requires { IfSome around (λ cells. HasAround map.now cells.now p) }
    ensures { result ≡ is_dust (cell_on map.now (under (beside p side))) }
{
    map.soundness();
    if let Some(cells) = around {
        return cells.has_dust(place_under(p, side));
    }
    match map.next_below(p, side.dir()) {
        Some(under) => map.has_dust(under),
        None => false,
    }
}

/// Whether a conductor stands over a position.
#[inline(always)]
pub fn has_conductor_over(map: &Frozen<'_>, around: Option<&Cells>, p: Pos) -> bool
    requires { IfSome around (λ cells. HasAround map.now cells.now p) }
    ensures { result ≡ conducts (cell_on map.now (over p)) }
{
    match around {
        Some(cells) => cells.has_conductor(next_nearby(map, cells, p, Dir::Up)),
        None => map.beside(p, Dir::Up).conducts(),
    }
}

/// Whether neither a device nor a conductor stands at the next position in that direction, as the
/// sector tells that has all around this one, if there is one. `false` promises nothing: only costs
/// rest on it.
#[inline(always)]
pub fn is_next_idle(map: &Frozen<'_>, around: Option<&Cells>, p: Pos, dir: Dir) -> bool
    requires { IfSome around (λ cells. HasAround map.now cells.now p) }
    ensures device { result ≡ true → is_device (cell_on map.now (neighbor p dir)) ≡ false }
    ensures conductor { result ≡ true → conducts (cell_on map.now (neighbor p dir)) ≡ false }
{
    match around {
        Some(cells) => cells.is_idle(next_nearby(map, cells, p, dir)),
        None => false,
    }
}

/// Whether no component of machines stands close to a position in the layer of another that is
/// close to it. `false` promises nothing: only costs rest on it.
#[inline(always)]
pub fn is_bare(map: &Frozen<'_>, cells: &Cells, p: Pos, other: Pos) -> bool
    requires around { HasAround map.now cells.now p }
    requires close { IsClose p other }
    ensures { result ≡ true → (q : Pos) → IsClose p q → q.y ≡ other.y
        → is_component (cell_on map.now q) ≡ false }
{
    map.soundness();
    let row = row_of(p);
    if !is_bare_row(map, cells, p, other, row - 1) {
        return false;
    }
    if !is_bare_row(map, cells, p, other, row) {
        return false;
    }
    is_bare_row(map, cells, p, other, row + 1)
}

// Whether none stands close to it in one row of that layer.
#[inline(always)]
fn is_bare_row(map: &Frozen<'_>, cells: &Cells, p: Pos, other: Pos, row: u32) -> bool
    requires around { HasAround map.now cells.now p }
    requires close { IsClose p (record other { z = pos row; x = p.x }) }
    ensures { result ≡ true → (q : Pos) → IsClose p q → q.y ≡ other.y → q.z ≡ pos row
        → is_component (cell_on map.now q) ≡ false }
{
    map.soundness();
    cells.components_in_row(column_of(p) - 1, layer_of(other), row, 3) == 0
}

#[tactic(auto, using(vx_base::proofs::Signed::signed))]
fn column_of(p: Pos) -> u32
    ensures { result ≡ unsigned_abs p.x }
{
    p.x.unsigned_abs()
}

#[tactic(auto, using(vx_base::proofs::Signed::signed))]
fn layer_of(p: Pos) -> u32
    ensures { result ≡ unsigned_abs p.y }
{
    p.y.unsigned_abs()
}

#[tactic(auto, using(vx_base::proofs::Signed::signed))]
fn row_of(p: Pos) -> u32
    ensures value { result ≡ unsigned_abs p.z }
    ensures most { result ≤ 2147483648 }
{
    p.z.unsigned_abs()
}
