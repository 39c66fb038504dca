//! Where dust lies that dust links to or a device feeds.
ghost use Rattle.std.specs.Prelude.{◌≡◌, ◌&&◌, true, [], ◌∷◌, if◌then◌else◌, IfSome, SomeIff};
ghost use Rattle.std.specs.Option.{option_to_list};
ghost use Rattle.vx_block.specs.Conductors.{conducts};
ghost use Rattle.vx_cells.specs.Maps.{cell_on};
ghost use Rattle.vx_geom.specs.Neighbor.{neighbor};
ghost use Rattle.vx_power.specs.Dust.{beside, over, under, links_up, links_down};
ghost use Rattle.vx_power.specs.Levels.{is_place};
ghost use Rattle.vx_power.specs.Signals.{gives, drives};
ghost use Rattle.vx_power.specs.Spreading.{dust_at};

use crate::signals::{drives, gives};
use vx_block::{Cell, Side};
use vx_cells::Frozen;
use vx_geom::{Dir, Pos};

/// The dust at the next position in that direction.
#[inline(always)]
#[tactic(auto, unfolding(crate::specs::Spreading::dust_at), using(crate::proofs::Stepping::dust_place))]
pub fn dust_at(map: &Frozen<'_>, p: Pos, dir: Dir) -> Option<Pos>
    ensures found { option_to_list result ≡ dust_at (cell_on map.now) p dir }
    ensures there { IfSome result (λ q. is_place q ≡ true) }
{
    map.soundness();
    match map.next(p, dir) {
        Some(next) if map.has_dust(next) => Some(next),
        _ => None,
    }
}

/// The dust to which dust at a position climbs on that side.
#[inline(always)]
#[tactic(auto, unfolding(crate::specs::Dust::links_up), using(crate::proofs::Stepping::dust_place))]
pub fn dust_over(map: &Frozen<'_>, p: Pos, side: Side) -> Option<Pos>
    ensures found { option_to_list result
        ≡ (if links_up (cell_on map.now) p side then over (beside p side) ∷ [] else []) }
    ensures there { IfSome result (λ q. is_place q ≡ true) }
{
    map.soundness();
    match map.next_above(p, side.dir()) {
        Some(over) if map.has_dust(over) && !map.beside(p, Dir::Up).conducts() => Some(over),
        _ => None,
    }
}

/// The dust to which dust at a position runs down on that side.
#[inline(always)]
#[tactic(auto, unfolding(crate::specs::Dust::links_down), using(crate::proofs::Stepping::dust_place))]
pub fn dust_under(map: &Frozen<'_>, p: Pos, side: Side) -> Option<Pos>
    ensures found { option_to_list result
        ≡ (if links_down (cell_on map.now) p side then under (beside p side) ∷ [] else []) }
    ensures there { IfSome result (λ q. is_place q ≡ true) }
{
    map.soundness();
    match map.next_below(p, side.dir()) {
        Some(under) if map.has_dust(under) && !map.beside(p, side.dir()).conducts() => Some(under),
        _ => None,
    }
}

/// The dust in that direction to which a cell at a position gives power.
#[inline(always)]
#[tactic(auto, using(crate::proofs::Stepping::dust_place))]
pub fn dust_given(map: &Frozen<'_>, cell: &Cell, p: Pos, dir: Dir) -> Option<Pos>
    ensures found { option_to_list result
        ≡ (if gives cell.now dir then dust_at (cell_on map.now) p dir else []) }
    ensures there { IfSome result (λ q. is_place q ≡ true) }
{
    map.soundness();
    if gives(*cell, dir) {
        dust_at(map, p, dir)
    } else {
        None
    }
}

/// The conductor in that direction that a cell at a position drives.
#[inline(always)]
pub fn driven(map: &Frozen<'_>, cell: &Cell, p: Pos, dir: Dir) -> Option<Pos>
    ensures { SomeIff result
        ((drives cell.now dir && conducts (cell_on map.now (neighbor p dir))) ≡ true)
        (neighbor p dir) }
{
    if !drives(*cell, dir) {
        return None;
    }
    match map.next(p, dir) {
        Some(next) if map.has_conductor(next) => Some(next),
        _ => None,
    }
}
