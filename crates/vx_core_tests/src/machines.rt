//! What machines ask for in one sector, by calls that a tick makes for all sectors at once.
use crate::maps::{Placed, row, world};
use crate::same::same;
use std::alloc::{AllocError, Global};
use std::process::Abort;
use std::test::Fail;
use vx_block::Cell;
use vx_cells::{Frozen, Whole};
use vx_geom::{Dir, Pos};
use vx_part::next_parts;
use vx_piston::{Move, candidate, claims};
use vx_power::{Leveled, levels};

// Dust from a lever over the border of two sectors, for one cell more than power reaches.
const LINE: Placed<'static> = &[
    (5, 1, 5, "lever:down:on"),
    (6, 1, 5, "dust:0"),
    (7, 1, 5, "dust:0"),
    (8, 1, 5, "dust:0"),
    (9, 1, 5, "dust:0"),
    (10, 1, 5, "dust:0"),
    (11, 1, 5, "dust:0"),
    (12, 1, 5, "dust:0"),
    (13, 1, 5, "dust:0"),
    (14, 1, 5, "dust:0"),
    (15, 1, 5, "dust:0"),
    (16, 1, 5, "dust:0"),
    (17, 1, 5, "dust:0"),
    (18, 1, 5, "dust:0"),
    (19, 1, 5, "dust:0"),
    (20, 1, 5, "dust:0"),
    (21, 1, 5, "dust:0"),
];

// A lever two sectors off the last dust that it feeds, by the stone that it powers.
const FAR: Placed<'static> = &[
    (14, 1, 5, "lever:east:on"),
    (15, 1, 5, "stone"),
    (16, 1, 5, "dust:0"),
    (17, 1, 5, "dust:0"),
    (18, 1, 5, "dust:0"),
    (19, 1, 5, "dust:0"),
    (20, 1, 5, "dust:0"),
    (21, 1, 5, "dust:0"),
    (22, 1, 5, "dust:0"),
    (23, 1, 5, "dust:0"),
    (24, 1, 5, "dust:0"),
    (25, 1, 5, "dust:0"),
    (26, 1, 5, "dust:0"),
    (27, 1, 5, "dust:0"),
    (28, 1, 5, "dust:0"),
    (29, 1, 5, "dust:0"),
    (30, 1, 5, "dust:0"),
    (31, 1, 5, "dust:0"),
];

const REPEATER: Placed<'static> = &[
    (5, 1, 5, "lever:down:on"),
    (6, 1, 5, "repeater:east:4:off:0"),
];

// A piston before eleven stones.
const PISTON: Placed<'static> = &[
    (5, 1, 5, "piston:east:in"),
    (5, 1, 6, "lever:down:on"),
    (6, 1, 5, "stone"),
    (7, 1, 5, "stone"),
    (8, 1, 5, "stone"),
    (9, 1, 5, "stone"),
    (10, 1, 5, "stone"),
    (11, 1, 5, "stone"),
    (12, 1, 5, "stone"),
    (13, 1, 5, "stone"),
    (14, 1, 5, "stone"),
    (15, 1, 5, "stone"),
    (16, 1, 5, "stone"),
];

// Two pistons that both want the cell between them.
const RIVALS: Placed<'static> = &[
    (4, 1, 4, "piston:east:in"),
    (4, 1, 5, "lever:down:on"),
    (6, 1, 4, "piston:west:in"),
    (6, 1, 5, "lever:down:on"),
];

#[test]
fn levels_of_a_sector_come_from_its_neighbor(rt: HostRuntime) -> Result<(), Fail> {
    let map = world(&rt, rt.alloc(), LINE)?;
    are_levels(&rt, rt.alloc(), &map, 0, &[(6, 15), (15, 6), (16, 5)])?;
    are_levels(
        &rt,
        rt.alloc(),
        &map,
        1,
        &[(15, 6), (16, 5), (20, 1), (21, 0)],
    )?;
    Ok(())
}

#[test]
fn levels_of_a_sector_come_from_two_sectors_off(rt: HostRuntime) -> Result<(), Fail> {
    let map = row(&rt, rt.alloc(), 3, FAR)?;
    are_levels(&rt, rt.alloc(), &map, 2, &[(30, 1), (31, 0)])?;
    Ok(())
}

// In the row of the dust these columns have these levels, as they are told of that sector.
fn are_levels(
    rt: &impl Abort,
    alloc: Global,
    map: &Whole,
    sector: u32,
    due: &[(i32, u8)],
) -> Result<(), AllocError> {
    let map = map.frozen();
    assert!(rt; sector < map.bounds().sectors());
    let levels = levels(alloc, &map, sector)?;
    for (x, level) in due {
        same(rt, &levels.at(Pos::new(*x, 1, 5)), level);
    }
    Ok(())
}

#[test]
fn dust_gets_its_levels(rt: HostRuntime) -> Result<(), Fail> {
    let map = world(&rt, rt.alloc(), LINE)?;
    let mut due = Vec::new(rt.alloc());
    for (x, text) in (6..16).zip([
        "dust:15", "dust:14", "dust:13", "dust:12", "dust:11", "dust:10", "dust:9", "dust:8",
        "dust:7", "dust:6",
    ]) {
        due.push((Pos::new(x, 1, 5), Cell::read(text).ok_or("no cell")?))?;
    }
    change_to(&rt, rt.alloc(), &map, &due)?;
    Ok(())
}

#[test]
fn a_repeater_begins_to_count(rt: HostRuntime) -> Result<(), Fail> {
    let map = world(&rt, rt.alloc(), REPEATER)?;
    let counting = Cell::read("repeater:east:4:off:3").ok_or("no cell")?;
    change_to(&rt, rt.alloc(), &map, &[(Pos::new(6, 1, 5), counting)])?;
    Ok(())
}

// These parts of the first sector change, and no others.
fn change_to(
    rt: &impl Abort,
    alloc: Global,
    map: &Whole,
    due: &[(Pos, Cell)],
) -> Result<(), AllocError> {
    let map = map.frozen();
    assert!(rt; 0 < map.bounds().sectors());
    let levels = levels(alloc, &map, 0)?;
    let found = next_parts(alloc, &map, &levels, 0)?;
    same(rt, &found.as_slice(), &due);
    Ok(())
}

#[test]
fn a_piston_pushes_twelve_cells_and_no_more(rt: HostRuntime) -> Result<(), Fail> {
    let mut map = world(&rt, rt.alloc(), PISTON)?;
    map.set(Pos::new(17, 1, 5), Cell::Stone)?;
    let row = [5, 6, 7, 8, 9, 10, 11, 12, 13, 14, 15, 16, 17, 18].map(|x| Pos::new(x, 1, 5));
    is_asked(&rt, rt.alloc(), &map.frozen(), Some(row.as_slice()))?;
    map.set(Pos::new(18, 1, 5), Cell::Stone)?;
    is_asked(&rt, rt.alloc(), &map.frozen(), None)?;
    Ok(())
}

// The piston on this map asks for a push of these cells, or for nothing.
fn is_asked(
    rt: &impl Abort,
    alloc: Global,
    map: &Frozen<'_>,
    due: Option<&[Pos]>,
) -> Result<(), AllocError> {
    let asked = asked(rt, alloc, map, Pos::new(5, 1, 5))?;
    let pushed = asked
        .as_ref()
        .map(|m| m.push && matches!(m.facing, Dir::East));
    same(rt, &pushed, &due.map(|_| true));
    same(rt, &asked.as_ref().map(|m| m.cells.as_slice()), &due);
    Ok(())
}

// What the piston at a position of the first sector asks for.
fn asked(
    rt: &impl Abort,
    alloc: Global,
    map: &Frozen<'_>,
    p: Pos,
) -> Result<Option<Move>, AllocError> {
    assert!(rt; 0 < map.bounds().sectors());
    let levels = levels(alloc, map, 0)?;
    Ok(candidate(map, &levels, p))
}

#[test]
fn the_lower_of_two_pistons_wins(rt: HostRuntime) -> Result<(), Fail> {
    let map = world(&rt, rt.alloc(), RIVALS)?;
    let (east, west) = (Pos::new(4, 1, 4), Pos::new(6, 1, 4));
    let lower = asked(&rt, rt.alloc(), &map.frozen(), east)?.ok_or("no move")?;
    let higher = asked(&rt, rt.alloc(), &map.frozen(), west)?.ok_or("no move")?;
    beats(&rt, rt.alloc(), lower, higher)?;
    Ok(())
}

fn beats(rt: &impl Abort, alloc: Global, lower: Move, higher: Move) -> Result<(), AllocError> {
    let first = lower.at;
    let moves = [lower, higher];
    let claims = claims(alloc, &moves)?;
    let won = [claims.wins(&moves[0]), claims.wins(&moves[1])];
    same(rt, &won, &[None, Some(first)]);
    Ok(())
}
