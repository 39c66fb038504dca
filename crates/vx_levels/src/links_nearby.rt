//! Which positions dust links to, where one sector has all around it.
ghost use Rattle.std.specs.Prelude.{◌≡◌, ◌<◌, true, false};
ghost use Rattle.vx_block.specs.Components.{is_dust};
ghost use Rattle.vx_block.specs.Conductors.{conducts};
ghost use Rattle.vx_cells.specs.Maps.{cell_on};
ghost use Rattle.vx_cells.specs.Nearby.{HasAround};
ghost use Rattle.vx_levels.specs.Linked.{linked, linked_on};
ghost use Rattle.vx_power.specs.Dust.{over, links, links_on, links_up, links_down};
ghost use Rattle.vx_power.specs.Levels.{is_place};

use vx_block::Side;
use vx_cells::{Cells, Frozen};
use vx_geom::Pos;
use vx_power::{links_beside, links_down, links_up, may_climb, may_fall};

/// The links of dust at a position, 3 bits for each side.
pub(crate) fn links_nearby(map: &Frozen<'_>, cells: &Cells, p: Pos) -> u16
    requires around { HasAround map.now cells.now p }
    requires place { is_place p ≡ true }
    requires dust { is_dust (cell_on map.now p) ≡ true }
    ensures links { linked result p ≡ links (cell_on map.now) p }
    ensures few { result < 4096 }
{
    let climbs = may_climb(map, cells, p);
    let falls = may_fall(map, cells, p);
    let east = bits_nearby(map, cells, p, Side::East, climbs, falls);
    let west = bits_nearby(map, cells, p, Side::West, climbs, falls);
    let south = bits_nearby(map, cells, p, Side::South, climbs, falls);
    let north = bits_nearby(map, cells, p, Side::North, climbs, falls);
    east + 8 * west + 64 * south + 512 * north
}

// The bits of one side.
#[inline(always)]
#[tactic(auto, unfolding(vx_power::specs::Dust::links_on))]
fn bits_nearby(
    map: &Frozen<'_>,
    cells: &Cells,
    p: Pos,
    side: Side,
    climbs: bool,
    falls: bool,
) -> u16
    requires around { HasAround map.now cells.now p }
    requires place { is_place p ≡ true }
    requires open { climbs ≡ true → conducts (cell_on map.now (over p)) ≡ false }
    requires low { climbs ≡ false → links_up (cell_on map.now) p side ≡ false }
    requires high { falls ≡ false → links_down (cell_on map.now) p side ≡ false }
    ensures links { linked_on result p side ≡ links_on (cell_on map.now) p side }
    ensures few { result < 8 }
{
    let mut bits = 0;
    if links_beside(map, cells, p, side) {
        bits += 1;
    }
    if links_up(map, cells, p, side, climbs) {
        bits += 2;
    }
    if links_down(map, cells, p, side, falls) {
        bits += 4;
    }
    bits
}
