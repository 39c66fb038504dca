//! Machines in a world of three sectors, played with one worker and with more, and a chest beside
//! them.
use crate::chests::{CHEST, empty, fill};
use crate::noting::Noting;
use std::alloc::Global;
use std::process::Abort;
use std::sync::Wait;
use std::test::Fail;
use std::thread::Threads;
use vx_block::{Cell, Part};
use vx_decide::Rule;
use vx_file::read_policy;
use vx_geom::{Bounds, LOW_HEIGHT, Pos};
use vx_keeper::{Keeper, Places};
use vx_record::Opening;
use vx_region::{Name, RegionNo};
use vx_sector::{Cmd, Reply, Sight};
use vx_step::{MAX_WORKERS, NoGate};
use vx_tick::Fate;
use vx_world::{Pass, Seats, World};

// The regions: a column before the sticky piston, of which nobody is a member, and ann's, with a
// chest.
const PLOTS: &str =
    "version = 1\n[[region]]\nid = 'nobodys'\ncuboid = [7, 0, 10, 7, 63, 10]\n[[region]]\nid = 'anns'\ncuboid = [5, 0, 14, 5, 63, 14]\nowners = ['ann']\n";

// What stands at x 5 in the rows of these z, beside the chest: a lever before dust, a piston before
// twelve stones, a sticky piston that can draw one, and a piston before thirteen stones. The first
// two pistons have their lever to the south, the third has that of the sticky one to the north.
const DUST: i32 = 2;

const PISTON: i32 = 6;

const STICKY: i32 = 10;

const TOO_MUCH: i32 = 12;

/// Three sectors, with these rows and regions.
pub fn opening(alloc: Global, players: Vec<Name>) -> Result<Opening, Fail> {
    let bounds = Bounds::new(3, 1, 1, LOW_HEIGHT).ok_or("no bounds")?;
    let policy = read_policy(alloc, PLOTS.as_bytes())?;
    let mut opening = Opening::new(alloc, bounds, players, policy)?;
    build(&mut opening)?;
    Ok(opening)
}

// Puts down what stands in these rows.
fn build(opening: &mut Opening) -> Result<(), Fail> {
    for (x, z, text) in [
        (5, DUST, "lever:down"),
        (5, PISTON, "piston:east"),
        (5, PISTON + 1, "lever:down"),
        (5, STICKY, "sticky:east"),
        (5, STICKY + 1, "lever:down"),
        (7, STICKY, "stone"),
        (5, TOO_MUCH, "piston:east"),
        (5, CHEST, "chest"),
    ] {
        put(opening, x, z, text)?;
    }
    put_row(opening, 22, DUST, "dust")?;
    put_row(opening, 19, TOO_MUCH, "stone")?;
    put_row(opening, 18, PISTON, "stone")
}

// From x 6 on, as far as before this one.
fn put_row(opening: &mut Opening, end: i32, z: i32, text: &str) -> Result<(), Fail> {
    for x in 6..end {
        put(opening, x, z, text)?;
    }
    Ok(())
}

fn put(opening: &mut Opening, x: i32, z: i32, text: &str) -> Result<(), Fail> {
    let part = Part::read(text).ok_or("no part")?;
    match opening.set(at(x, z), part) {
        Ok(()) => Ok(()),
        Err(_) => Err("not set".into()),
    }
}

/// A position in these rows.
pub fn at(x: i32, z: i32) -> Pos {
    Pos::new(x, 1, z)
}

/// Levers are turned, and dust, a push and a draw follow in the ticks after. A chest that was
/// filled before holds after them what it held.
pub fn step<A: Places + Send + Sync, B: Seats + Send + Sync, R: Threads + Wait + Abort + Sync>(
    rt: &R,
    alloc: Global,
    world: &World<A, B>,
    keeper: &mut Keeper<A>,
    passes: &mut [Pass<A, B>],
    workers: usize,
) -> Result<(), Fail> {
    let (ann, others) = passes.split_first_mut().ok_or("no pass")?;
    let bob = others.first_mut().ok_or("no pass")?;
    fill(rt, world, ann);
    push_and_reach(rt, alloc, world, keeper, ann, workers);
    draw(rt, alloc, world, keeper, ann, workers);
    empty(rt, world, ann, bob);
    Ok(())
}

fn push_and_reach<A: Places, B: Seats, R: Threads + Wait + Abort + Sync>(
    rt: &R,
    alloc: Global,
    world: &World<A, B>,
    keeper: &mut Keeper<A>,
    ann: &mut Pass<A, B>,
    workers: usize,
) {
    for z in [DUST, PISTON + 1, STICKY + 1] {
        turns(rt, world, ann, at(5, z));
    }
    let moved = [(at(5, PISTON), Fate::Moved), (at(5, STICKY), Fate::Moved)];
    ticks(rt, alloc, world, keeper, workers, &moved);
    for (x, z, text) in [
        (6, DUST, "dust:15"),
        (16, DUST, "dust:5"),
        (20, DUST, "dust:1"),
        (21, DUST, "dust:0"),
        (5, PISTON, "piston:east:out"),
        (6, PISTON, "head:east:plain"),
        (18, PISTON, "stone"),
        (5, TOO_MUCH, "piston:east:in"),
        (18, TOO_MUCH, "stone"),
    ] {
        sees(rt, world, ann, at(x, z), text);
    }
}

// The stone that the sticky piston would draw stands in a plot of nobody, in each tick anew.
fn draw<A: Places, B: Seats, R: Threads + Wait + Abort + Sync>(
    rt: &R,
    alloc: Global,
    world: &World<A, B>,
    keeper: &mut Keeper<A>,
    ann: &mut Pass<A, B>,
    workers: usize,
) {
    turns(rt, world, ann, at(5, STICKY + 1));
    let denied = Fate::Denied(at(7, STICKY), Rule::Member { at: RegionNo(1) });
    for _ in 0..2 {
        ticks(
            rt,
            alloc,
            world,
            keeper,
            workers,
            &[(at(5, STICKY), denied)],
        );
    }
    sees(rt, world, ann, at(5, STICKY), "sticky:east:out");
}

fn turns<A: Places, B: Seats, R: Wait + Abort>(
    rt: &R,
    world: &World<A, B>,
    pass: &mut Pass<A, B>,
    p: Pos,
) {
    let answer = world.submit(rt, pass, Cmd::Turn(p), &NoGate);
    assert!(rt; answer == Ok(Reply::Done(Rule::Default)));
}

// Makes a tick, whose moves have these fates; the gate is told each sector once a phase.
fn ticks<A: Places, B: Seats, R: Threads + Wait + Abort + Sync>(
    rt: &R,
    alloc: Global,
    world: &World<A, B>,
    keeper: &mut Keeper<A>,
    workers: usize,
    due: &[(Pos, Fate)],
) {
    let gate = Noting::new();
    assert!(rt; 0 < workers && workers <= MAX_WORKERS);
    let Ok(fates) = world.tick(rt, alloc, keeper, workers, &gate) else {
        panic!(rt; "no tick");
    };
    assert!(rt; fates.as_slice() == due);
    assert!(rt; gate.has_each_once());
}

fn sees<A: Places, B: Seats, R: Wait + Abort>(
    rt: &R,
    world: &World<A, B>,
    pass: &mut Pass<A, B>,
    p: Pos,
    text: &str,
) {
    let cell = Cell::read(text).expect(rt, "no cell");
    let gate = Noting::new();
    let answer = world.submit(rt, pass, Cmd::Look(p), &gate);
    assert!(rt; answer == Ok(Reply::Seen(Sight::new(cell))));
    assert!(rt; gate.has_held(p.x / 16));
}
