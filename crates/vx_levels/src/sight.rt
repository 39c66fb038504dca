//! What is seen of dust at a position.
ghost use Rattle.std.specs.Prelude.{◌≡◌, true, false, None, IfSome};
ghost use Rattle.vx_block.specs.Components.{is_dust};
ghost use Rattle.vx_cells.specs.Maps.{cell_on};
ghost use Rattle.vx_cells.specs.Nearby.{HasAround};
ghost use Rattle.vx_levels.specs.Sights.{IsSightOf};
ghost use Rattle.vx_power.specs.Levels.{is_place};
ghost use Rattle.vx_power.specs.Signals.{is_fed};

use crate::links::links_anywhere;
use crate::links_nearby::links_nearby;
use vx_cells::{Cells, Frozen};
use vx_geom::Pos;
use vx_power::{has_feeder, has_feeder_within};

/// What dust links to, 3 bits for each side, and whether it is fed.
#[derive(Clone, Copy)]
pub(crate) struct Sight {
    pub links: u16,
    pub is_fed: bool,
}

/// What is seen of the dust at a position; `None` where none lies.
pub(crate) fn sight_at(map: &Frozen<'_>, p: Pos) -> Option<Sight>
    ensures some { IfSome result (IsSightOf (cell_on map.now) p) }
    ensures none { result ≡ None → is_dust (cell_on map.now p) ≡ false }
{
    match map.around(p) {
        Some(cells) => sight_nearby(map, cells, p),
        None => sight_anywhere(map, p),
    }
}

// What is seen of the dust there, read from the sector that has all around the position.
#[inline(always)]
#[tactic(auto, unfolding(vx_power::specs::Signals::is_fed), using(vx_power::proofs::Stepping::dust_place, vx_cells::proofs::Nearby::close_here))]
fn sight_nearby(map: &Frozen<'_>, cells: &Cells, p: Pos) -> Option<Sight>
    requires { HasAround map.now cells.now p }
    ensures some { IfSome result (IsSightOf (cell_on map.now) p) }
    ensures none { result ≡ None → is_dust (cell_on map.now p) ≡ false }
{
    map.soundness();
    if !cells.has_dust(p) {
        return None;
    }
    Some(Sight {
        links: links_nearby(map, cells, p),
        is_fed: has_feeder_within(map, cells, p),
    })
}

// What is seen of the dust there, read cell by cell from the map.
#[tactic(auto, unfolding(vx_power::specs::Signals::is_fed), using(vx_power::proofs::Stepping::dust_place))]
fn sight_anywhere(map: &Frozen<'_>, p: Pos) -> Option<Sight>
    ensures some { IfSome result (IsSightOf (cell_on map.now) p) }
    ensures none { result ≡ None → is_dust (cell_on map.now p) ≡ false }
{
    map.soundness();
    if !map.has_dust(p) {
        return None;
    }
    Some(Sight {
        links: links_anywhere(map, p),
        is_fed: has_feeder(map, p),
    })
}
