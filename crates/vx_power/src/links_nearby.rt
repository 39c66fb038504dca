//! Which dust close to it dust links to, where one sector has all around it.
ghost use Rattle.std.specs.Prelude.{◌≡◌, true, false};
ghost use Rattle.vx_block.specs.Components.{is_dust};
ghost use Rattle.vx_block.specs.Conductors.{conducts};
ghost use Rattle.vx_block.specs.declared.side.Side.{Side};
ghost use Rattle.vx_cells.specs.Maps.{cell_on};
ghost use Rattle.vx_cells.specs.Nearby.{HasAround, IsClose};
ghost use Rattle.vx_power.specs.Dust.{over, links_beside, links_up, links_down};
ghost use Rattle.vx_power.specs.Levels.{is_place};

use crate::nearby::{is_bare, next_nearby};
use crate::places::{place_beside, place_over, place_under};
use vx_block::Side;
use vx_cells::{Cells, Frozen};
use vx_geom::{Dir, Pos};

/// Whether dust at a position may climb on any side: some component stands close to it in the layer
/// over it, and nothing over it conducts. `true` does not promise that it does.
pub fn may_climb(map: &Frozen<'_>, cells: &Cells, p: Pos) -> bool
    requires { HasAround map.now cells.now p }
    ensures open { result ≡ true → conducts (cell_on map.now (over p)) ≡ false }
    ensures none { result ≡ false → (side : Side)
        → links_up (cell_on map.now) p side ≡ false }
{
    let above = next_nearby(map, cells, p, Dir::Up);
    if is_bare(map, cells, p, above) {
        return false;
    }
    !cells.has_conductor(above)
}

/// Whether dust at a position may run down on any side: some component stands close to it in the
/// layer under it. `true` does not promise that it does.
pub fn may_fall(map: &Frozen<'_>, cells: &Cells, p: Pos) -> bool
    requires { HasAround map.now cells.now p }
    ensures { result ≡ false → (side : Side) → links_down (cell_on map.now) p side ≡ false }
{
    let below = next_nearby(map, cells, p, Dir::Down);
    !is_bare(map, cells, p, below)
}

/// Whether dust at a position links to dust beside it on that side.
#[inline(always)]
#[tactic(auto, unfolding(crate::specs::Dust::links_beside), using(vx_cells::proofs::Nearby::close_beside))]
pub fn links_beside(map: &Frozen<'_>, cells: &Cells, p: Pos, side: Side) -> bool
    requires around { HasAround map.now cells.now p }
    requires place { is_place p ≡ true }
    ensures { result ≡ links_beside (cell_on map.now) p side }
{
    has_dust(map, cells, p, place_beside(p, side))
}

/// Whether it climbs to dust on that side, where `climbs` says whether it may on any.
#[inline(always)]
#[tactic(auto, unfolding(crate::specs::Dust::links_up), using(crate::proofs::Close::close_over))]
pub fn links_up(map: &Frozen<'_>, cells: &Cells, p: Pos, side: Side, climbs: bool) -> bool
    requires around { HasAround map.now cells.now p }
    requires place { is_place p ≡ true }
    requires open { climbs ≡ true → conducts (cell_on map.now (over p)) ≡ false }
    requires low { climbs ≡ false → links_up (cell_on map.now) p side ≡ false }
    ensures { result ≡ links_up (cell_on map.now) p side }
{
    climbs && has_dust(map, cells, p, place_over(p, side))
}

/// Whether it runs down to dust on that side, where `falls` says whether it may on any.
#[inline(always)]
#[tactic(auto, unfolding(crate::specs::Dust::links_down), using(vx_cells::proofs::Nearby::close_beside, crate::proofs::Close::close_under))]
pub fn links_down(map: &Frozen<'_>, cells: &Cells, p: Pos, side: Side, falls: bool) -> bool
    requires around { HasAround map.now cells.now p }
    requires place { is_place p ≡ true }
    requires high { falls ≡ false → links_down (cell_on map.now) p side ≡ false }
    ensures { result ≡ links_down (cell_on map.now) p side }
{
    falls
        && has_dust(map, cells, p, place_under(p, side))
        && !has_conductor(map, cells, p, place_beside(p, side))
}

// Whether dust lies at a position that is close to p.
#[inline(always)]
fn has_dust(map: &Frozen<'_>, cells: &Cells, p: Pos, other: Pos) -> bool
    requires around { HasAround map.now cells.now p }
    requires close { IsClose p other }
    ensures { result ≡ is_dust (cell_on map.now other) }
{
    map.soundness();
    cells.has_dust(other)
}

// Whether a conductor stands at a position that is close to p.
#[inline(always)]
fn has_conductor(map: &Frozen<'_>, cells: &Cells, p: Pos, other: Pos) -> bool
    requires around { HasAround map.now cells.now p }
    requires close { IsClose p other }
    ensures { result ≡ conducts (cell_on map.now other) }
{
    map.soundness();
    cells.has_conductor(other)
}
