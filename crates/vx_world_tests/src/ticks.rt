//! What a tick leaves under the locks.
use std::alloc::Global;
use std::process::Abort;
use std::sync::Wait;
use std::test::Fail;
use std::thread::Threads;
use vx_block::{Cell, Part};
use vx_board::Desk;
use vx_decide::Rule;
use vx_geom::{Pos, ShapeSpec};
use vx_keeper::{Keeper, Places};
use vx_policy::Edit;
use vx_region::RegionNo;
use vx_sector::{Cmd, Refusal, Reply, Sight};
use vx_step::NoGate;
use vx_world::{Pass, Seats, World};

/// Each sector has after a tick what was put down in it before.
pub fn seen_after_a_tick<
    A: Places + Send + Sync,
    B: Seats + Send + Sync,
    R: Threads + Wait + Abort + Sync,
>(
    rt: &R,
    alloc: Global,
    world: &World<A, B>,
    keeper: &mut Keeper<A>,
    passes: &mut [Pass<A, B>],
) -> Result<(), Fail> {
    let ann = passes.first_mut().ok_or("no pass")?;
    sees_both(rt, alloc, world, keeper, ann);
    Ok(())
}

fn sees_both<A: Places, B: Seats, R: Threads + Wait + Abort + Sync>(
    rt: &R,
    alloc: Global,
    world: &World<A, B>,
    keeper: &mut Keeper<A>,
    pass: &mut Pass<A, B>,
) {
    let (west, east) = (Pos::new(5, 1, 5), Pos::new(20, 1, 5));
    is_done(rt, world, pass, Cmd::Place(west, Part::Stone));
    is_done(rt, world, pass, Cmd::Place(east, Part::Dirt));
    makes_a_tick(rt, alloc, world, keeper);
    is_seen(rt, world, pass, west, Cell::Stone);
    is_seen(rt, world, pass, east, Cell::Dirt);
}

/// A tick is made, by one worker.
pub fn makes_a_tick<A: Places, B: Seats, R: Threads + Wait + Abort + Sync>(
    rt: &R,
    alloc: Global,
    world: &World<A, B>,
    keeper: &mut Keeper<A>,
) {
    assert!(rt; world.tick(rt, alloc, keeper, 1, &NoGate).is_ok());
}

/// The command is done, by leave of no region.
pub fn is_done<A: Places, B: Seats, R: Wait + Abort>(
    rt: &R,
    world: &World<A, B>,
    pass: &mut Pass<A, B>,
    cmd: Cmd,
) {
    let answer = world.submit(rt, pass, cmd, &NoGate);
    assert!(rt; matches!(answer, Ok(Reply::Done(Rule::Default))));
}

fn is_seen<A: Places, B: Seats, R: Wait + Abort>(
    rt: &R,
    world: &World<A, B>,
    pass: &mut Pass<A, B>,
    p: Pos,
    cell: Cell,
) {
    let answer = world.submit(rt, pass, Cmd::Look(p), &NoGate);
    assert!(rt; answer == Ok(Reply::Seen(Sight::new(cell))));
}

/// An edit denies nothing in the window in which it is accepted, and denies in the next.
pub fn edits_count_next<
    A: Places + Send + Sync,
    B: Seats + Send + Sync,
    R: Threads + Wait + Abort + Sync,
>(
    rt: &R,
    alloc: Global,
    world: &World<A, B>,
    desk: &Desk<A, &R>,
    keeper: &mut Keeper<A>,
    passes: &mut [Pass<A, B>],
) -> Result<(), Fail> {
    let ann = passes.first_mut().ok_or("no pass")?;
    plotted(rt, alloc, desk, keeper)?;
    is_denied_next(rt, alloc, world, keeper, ann);
    Ok(())
}

/// The column at x 5 and z 5 becomes a plot of which nobody is a member, and the keeper is told.
pub fn plotted<A: Places, R: Wait>(
    rt: &R,
    alloc: Global,
    desk: &Desk<A, &R>,
    keeper: &mut Keeper<A>,
) -> Result<(), Fail> {
    let column = ShapeSpec::Cuboid(Pos::new(5, 0, 5), Pos::new(5, 63, 5));
    let plot = Edit::Define(String::from_str(alloc, "plot")?, column);
    let Ok(listed) = desk.edit(rt, alloc, plot) else {
        return Err("no plot".into());
    };
    keeper.learn(&listed);
    Ok(())
}

fn is_denied_next<A: Places, B: Seats, R: Threads + Wait + Abort + Sync>(
    rt: &R,
    alloc: Global,
    world: &World<A, B>,
    keeper: &mut Keeper<A>,
    pass: &mut Pass<A, B>,
) {
    is_done(rt, world, pass, Cmd::Place(Pos::new(5, 1, 5), Part::Stone));
    makes_a_tick(rt, alloc, world, keeper);
    is_denied(rt, world, pass, Cmd::Place(Pos::new(5, 2, 5), Part::Stone));
}

fn is_denied<A: Places, B: Seats, R: Wait + Abort>(
    rt: &R,
    world: &World<A, B>,
    pass: &mut Pass<A, B>,
    cmd: Cmd,
) {
    let denied = Refusal::Denied(Rule::Member { at: RegionNo(1) });
    let answer = world.submit(rt, pass, cmd, &NoGate);
    assert!(rt; answer == Err(denied));
}
