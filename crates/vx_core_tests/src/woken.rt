//! Ticks that look where something changed, beside ticks that look everywhere.
use crate::maps::{Placed, all_agree, world};
use crate::same::same;
use std::alloc::{AllocError, Global};
use std::marker::Brand;
use std::process::Abort;
use std::test::Fail;
use std::thread::Threads;
use vx_block::{Cell, Part};
use vx_cells::{Cells, Whole};
use vx_geom::{Pos, ShapeSpec};
use vx_play::Play;
use vx_policy::{Edit, Policy, Version};
use vx_region::Name;
use vx_sector::{Cmd, Seat, Sector};
use vx_step::{Fate, step_plain};

// What a player leaves at a position before the tick of that number: the text of a cell.
type Written<'a> = &'a [(u32, Pos, &'a str)];

const TICKS: u32 = 24;

// A clock of three ticks, and its line over the border of two sectors: a repeater, lamps and
// pistons below, one of which pushes over the border.
const CLOCK: Placed<'static> = &[
    (4, 1, 4, "stone"),
    (5, 1, 4, "torch:west:on"),
    (5, 1, 5, "dust:0"),
    (5, 1, 6, "dust:0"),
    (4, 1, 6, "dust:0"),
    (4, 1, 5, "repeater:north:2:off:0"),
    (6, 1, 4, "dust:0"),
    (7, 1, 4, "dust:0"),
    (7, 0, 4, "lamp:off:0"),
    (8, 1, 4, "dust:0"),
    (9, 1, 4, "dust:0"),
    (9, 0, 4, "piston:south:in"),
    (9, 0, 5, "stone"),
    (10, 1, 4, "dust:0"),
    (11, 1, 4, "repeater:east:1:off:0"),
    (12, 1, 4, "dust:0"),
    (12, 0, 4, "sticky:south:in"),
    (12, 0, 5, "stone"),
    (13, 1, 4, "dust:0"),
    (14, 1, 4, "dust:0"),
    (14, 0, 4, "piston:east:in"),
    (15, 0, 4, "stone"),
    (15, 1, 4, "dust:0"),
    (16, 1, 4, "dust:0"),
    (17, 1, 4, "dust:0"),
    (18, 1, 4, "lamp:off:0"),
];

// Dust of the clock's line is broken and laid again, and stones are laid where pistons want to go.
const LAID: Written<'static> = &[
    (3, Pos { y: 0, z: 7, x: 9 }, "stone"),
    (6, Pos { y: 1, z: 4, x: 8 }, "air"),
    (9, Pos { y: 1, z: 4, x: 8 }, "dust:0"),
    (11, Pos { y: 1, z: 4, x: 13 }, "air"),
    (14, Pos { y: 1, z: 5, x: 13 }, "dust:0"),
    (16, Pos { y: 1, z: 4, x: 13 }, "dust:0"),
    (18, Pos { y: 0, z: 7, x: 9 }, "air"),
];

// Levers whose dust runs up to a piston, a torch and a locked repeater, and a piston that wants to
// push into a plot.
const LEVERS: Placed<'static> = &[
    (3, 1, 3, "lever:down:off"),
    (4, 1, 3, "dust:0"),
    (5, 1, 3, "stone"),
    (5, 2, 3, "dust:0"),
    (6, 2, 3, "stone"),
    (7, 2, 3, "torch:west:on"),
    (7, 3, 3, "lamp:off:0"),
    (3, 1, 8, "lever:down:off"),
    (4, 1, 8, "repeater:east:2:off:0"),
    (4, 1, 9, "repeater:north:1:off:0"),
    (4, 1, 10, "lever:down:off"),
    (5, 1, 8, "dust:0"),
    (6, 1, 8, "sticky:south:in"),
    (6, 1, 9, "stone"),
    (14, 1, 20, "piston:east:in"),
    (14, 1, 21, "lever:down:off"),
    (15, 1, 20, "stone"),
    (16, 1, 20, "stone"),
];

const TURNED: Written<'static> = &[
    (1, Pos { y: 1, z: 3, x: 3 }, "lever:down:on"),
    (2, Pos { y: 1, z: 8, x: 3 }, "lever:down:on"),
    (4, Pos { y: 1, z: 21, x: 14 }, "lever:down:on"),
    (6, Pos { y: 1, z: 10, x: 4 }, "lever:down:on"),
    (8, Pos { y: 1, z: 8, x: 3 }, "lever:down:off"),
    (9, Pos { y: 1, z: 3, x: 3 }, "lever:down:off"),
    (11, Pos { y: 1, z: 10, x: 4 }, "lever:down:off"),
    (15, Pos { y: 1, z: 3, x: 3 }, "lever:down:on"),
    (17, Pos { y: 1, z: 21, x: 14 }, "lever:down:off"),
];

#[test]
fn looking_where_something_changed_is_enough(rt: HostRuntime) -> Result<(), Fail> {
    follow(&rt, rt.alloc(), CLOCK, LAID)?;
    follow(&rt, rt.alloc(), LEVERS, TURNED)
}

// Each tick of a game leaves what a tick that looks everywhere makes of the same map, on one thread
// and on several.
fn follow<R: Threads + Abort + Sync>(
    rt: &R,
    alloc: Global,
    placed: Placed,
    written: Written,
) -> Result<(), Fail> {
    let mut map = world(rt, alloc, placed)?;
    let mut play = open(alloc, &map)?;
    for number in 1..TICKS {
        write(rt, &mut play, &mut map, written, number)?;
        if number == 2 {
            play.edit(alloc, plot(alloc)?)?;
        }
        same_tick(rt, alloc, &mut play, &mut map)?;
    }
    Ok(())
}

// What the player does before a tick, done on the map as well.
fn write(
    rt: &impl Abort,
    play: &mut Play<Brand>,
    map: &mut Whole,
    written: Written,
    number: u32,
) -> Result<(), Fail> {
    let seat = Seat {
        number: 0,
        name: ann()?,
    };
    for (tick, p, text) in written {
        if *tick == number {
            let cell = Cell::read(text).expect(rt, "no such cell");
            assert!(rt; play.act(seat, command(*p, text, cell)).is_ok());
            map.set(*p, cell)?;
        }
    }
    Ok(())
}

// The command that leaves this cell.
fn command(p: Pos, text: &str, cell: Cell) -> Cmd {
    match cell {
        Cell::Air => Cmd::Break(p),
        Cell::Lever { .. } => Cmd::Turn(p),
        _ if text == "stone" => Cmd::Place(p, Part::Stone),
        _ => Cmd::Place(p, Part::Dust),
    }
}

fn same_tick<R: Threads + Abort + Sync>(
    rt: &R,
    alloc: Global,
    play: &mut Play<Brand>,
    map: &mut Whole,
) -> Result<(), Fail> {
    let (next, fates) = stepped(rt, alloc, map, play.version())?;
    told(rt, alloc, play, fates.as_slice())?;
    stands(rt, play, &next);
    *map = next;
    Ok(())
}

// A tick that looks everywhere, the same for 1 and 4 workers.
fn stepped<R: Threads + Abort + Sync>(
    rt: &R,
    alloc: Global,
    map: &Whole,
    version: &Version,
) -> Result<(Whole, Vec<(Pos, Fate)>), AllocError> {
    let (next, fates) = step_plain(alloc, map, version)?;
    all_agree(rt, alloc, map, version, &[1, 4], &next, fates.as_slice())?;
    Ok((next, fates))
}

// A tick of the game tells these fates.
fn told(
    rt: &impl Abort,
    alloc: Global,
    play: &mut Play<Brand>,
    fates: &[(Pos, Fate)],
) -> Result<(), Fail> {
    let done = play.tick(alloc).ok().ok_or("no tick")?;
    same(rt, &done.fates.as_slice(), &fates);
    Ok(())
}

// The cells of the game are those of the map.
fn stands(rt: &impl Abort, play: &Play<Brand>, map: &Whole) {
    for (sector, cells) in play.sectors().iter().zip(map.sectors()) {
        has_cells(rt, sector, cells);
    }
}

fn has_cells(rt: &impl Abort, sector: &Sector, cells: &Cells) {
    assert!(rt; sector.cells() == cells);
}

// Land behind x 16 that nobody owns.
fn plot(alloc: Global) -> Result<Edit, AllocError> {
    let land = ShapeSpec::Cuboid(Pos::new(17, 0, 16), Pos::new(31, 63, 31));
    Ok(Edit::Define(String::from_str(alloc, "land")?, land))
}

fn ann() -> Result<Name, Fail> {
    Ok(Name::read("ann").ok().ok_or("no such name")?)
}

fn open(alloc: Global, map: &Whole) -> Result<Play<Brand>, Fail> {
    let ann = ann()?;
    Ok(open_for(alloc, map, ann)?)
}

fn open_for(alloc: Global, map: &Whole, player: Name) -> Result<Play<Brand>, AllocError> {
    let map = map.try_clone()?;
    let names = Vec::from_slice(alloc, &[player])?;
    Play::open(alloc, map, names, Policy::new(alloc)?)
}
