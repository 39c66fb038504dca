//! Which positions dust links to, in bits, and what stands there.
ghost use Rattle.std.specs.Prelude.{◌≡◌, ◌<◌, ◌++◌, ◌∷◌, [], max, true, if◌then◌else◌, OnOk};
ghost use Rattle.std.specs.List.{filter};
ghost use Rattle.vx_block.specs.Components.{is_dust};
ghost use Rattle.vx_cells.specs.Maps.{cell_on};
ghost use Rattle.vx_levels.specs.Consistency.{greatest};
ghost use Rattle.vx_levels.specs.Linked.{level_at, linked, linked_on, links_at};
ghost use Rattle.vx_levels.specs.Pending.{is_between};
ghost use Rattle.vx_power.specs.Dust.{beside, over, under, links, links_on, links_beside, links_up, links_down};
ghost use Rattle.vx_power.specs.Levels.{is_place};

use crate::linked_levels::LinkedLevels;
use crate::links_nearby::links_nearby;
use std::alloc::AllocError;
use vx_block::Side;
use vx_cells::Frozen;
use vx_geom::Pos;
use vx_power::{Leveled, dust_at, dust_over, dust_under, place_beside, place_over, place_under};

/// The links of dust at a position, 3 bits for each side.
#[tactic(auto, using(vx_power::proofs::Stepping::dust_place))]
pub(crate) fn links_of(map: &Frozen<'_>, p: Pos) -> u16
    requires { is_dust (cell_on map.now p) ≡ true }
    ensures links { linked result p ≡ links (cell_on map.now) p }
    ensures few { result < 4096 }
{
    map.soundness();
    match map.around(p) {
        Some(cells) => links_nearby(map, cells, p),
        None => links_anywhere(map, p),
    }
}

/// The links of dust at a position, 3 bits for each side, read cell by cell from the map.
pub(crate) fn links_anywhere(map: &Frozen<'_>, p: Pos) -> u16
    requires { is_dust (cell_on map.now p) ≡ true }
    ensures links { linked result p ≡ links (cell_on map.now) p }
    ensures few { result < 4096 }
{
    let east = bits_on(map, p, Side::East);
    let west = bits_on(map, p, Side::West);
    let south = bits_on(map, p, Side::South);
    let north = bits_on(map, p, Side::North);
    east + 8 * west + 64 * south + 512 * north
}

// The bits of one side.
#[tactic(auto, unfolding(vx_power::specs::Dust::links_on))]
fn bits_on(map: &Frozen<'_>, p: Pos, side: Side) -> u16
    ensures links { linked_on result p side ≡ links_on (cell_on map.now) p side }
    ensures few { result < 8 }
{
    let mut bits = 0;
    if links_beside(map, p, side) {
        bits += 1;
    }
    if links_up(map, p, side) {
        bits += 2;
    }
    if links_down(map, p, side) {
        bits += 4;
    }
    bits
}

fn links_beside(map: &Frozen<'_>, p: Pos, side: Side) -> bool
    ensures { result ≡ links_beside (cell_on map.now) p side }
{
    dust_at(map, p, side.dir()).is_some()
}

fn links_up(map: &Frozen<'_>, p: Pos, side: Side) -> bool
    ensures { result ≡ links_up (cell_on map.now) p side }
{
    dust_over(map, p, side).is_some()
}

fn links_down(map: &Frozen<'_>, p: Pos, side: Side) -> bool
    ensures { result ≡ links_down (cell_on map.now) p side }
{
    dust_under(map, p, side).is_some()
}

/// The greatest level of the dust that dust at a position links to, by the links that are kept.
#[inline(always)]
pub(crate) fn greatest_linked(levels: &LinkedLevels, p: Pos) -> u8
    requires { is_place p ≡ true }
    ensures value { result ≡ greatest (level_at levels.now) (linked (links_at levels.now p) p) }
    ensures most { result < 16 }
{
    let links = levels.links(p);
    let east = greatest_on(levels, p, Side::East, links % 8);
    let west = greatest_on(levels, p, Side::West, links / 8 % 8);
    let south = greatest_on(levels, p, Side::South, links / 64 % 8);
    let north = greatest_on(levels, p, Side::North, links / 512 % 8);
    more(more(east, west), more(south, north))
}

#[inline(always)]
fn greatest_on(levels: &LinkedLevels, p: Pos, side: Side, bits: u16) -> u8
    requires { is_place p ≡ true }
    ensures value { result ≡ greatest (level_at levels.now) (linked_on bits p side) }
    ensures most { result < 16 }
{
    if bits == 0 {
        return 0;
    }
    let beside = level_if(levels, bits % 2 == 1, place_beside(p, side));
    let over = level_if(levels, bits / 2 % 2 == 1, place_over(p, side));
    let under = level_if(levels, bits / 4 % 2 == 1, place_under(p, side));
    more(beside, more(over, under))
}

fn level_if(levels: &LinkedLevels, is_linked: bool, q: Pos) -> u8
    ensures value { result
        ≡ greatest (level_at levels.now) (if is_linked then q ∷ [] else []) }
    ensures most { result < 16 }
{
    if is_linked { levels.at(q) } else { 0 }
}

// The greater of two.
fn more(a: u8, b: u8) -> u8
    ensures { result ≡ max a b }
{
    if a < b { b } else { a }
}

/// Adds what dust at a position links to, by the links that are kept, where one more than the level
/// lies from `least` up to below `bound`.
pub(crate) fn add_below(
    list: &mut Vec<Pos>,
    levels: &LinkedLevels,
    p: Pos,
    least: u8,
    bound: u8,
) -> Result<(), AllocError>
    requires { is_place p ≡ true }
    ensures { OnOk result (list.new.items ≡ list.old.items
        ++ filter (is_between (level_at levels.now) least bound)
        (linked (links_at levels.now p) p)) }
{
    let links = levels.links(p);
    add_below_on(list, levels, p, Side::East, links % 8, least, bound)?;
    add_below_on(list, levels, p, Side::West, links / 8 % 8, least, bound)?;
    add_below_on(list, levels, p, Side::South, links / 64 % 8, least, bound)?;
    add_below_on(list, levels, p, Side::North, links / 512 % 8, least, bound)
}

#[inline(always)]
fn add_below_on(
    list: &mut Vec<Pos>,
    levels: &LinkedLevels,
    p: Pos,
    side: Side,
    bits: u16,
    least: u8,
    bound: u8,
) -> Result<(), AllocError>
    requires { is_place p ≡ true }
    ensures { OnOk result (list.new.items ≡ list.old.items
        ++ filter (is_between (level_at levels.now) least bound) (linked_on bits p side)) }
{
    if bits == 0 {
        return Ok(());
    }
    add_if_below(
        list,
        levels,
        bits % 2 == 1,
        place_beside(p, side),
        least,
        bound,
    )?;
    add_if_below(
        list,
        levels,
        bits / 2 % 2 == 1,
        place_over(p, side),
        least,
        bound,
    )?;
    add_if_below(
        list,
        levels,
        bits / 4 % 2 == 1,
        place_under(p, side),
        least,
        bound,
    )
}

#[inline(always)]
fn add_if_below(
    list: &mut Vec<Pos>,
    levels: &LinkedLevels,
    is_linked: bool,
    q: Pos,
    least: u8,
    bound: u8,
) -> Result<(), AllocError>
    ensures { OnOk result (list.new.items ≡ list.old.items
        ++ filter (is_between (level_at levels.now) least bound)
        (if is_linked then q ∷ [] else [])) }
{
    if !is_linked {
        return Ok(());
    }
    let next = levels.at(q) + 1;
    if least <= next && next < bound {
        list.push(q)?;
    }
    Ok(())
}
