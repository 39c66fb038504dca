//! Players on threads of their own, and the settlement of what they did.
ghost use Rattle.std.specs.Prelude.{◌≡◌, ◌+◌, ◌*◌};

use std::alloc::{AllocError, Global};
use std::process::Abort;
use std::sync::Wait;
use std::test::Fail;
use std::thread::{self, Threads};
use vx_block::Part;
use vx_board::Desk;
use vx_geom::{Pos, ShapeSpec};
use vx_keeper::{Keeper, Places};
use vx_policy::Edit;
use vx_record::Fault;
use vx_sector::Cmd;
use vx_step::NoGate;
use vx_windows::MAX_PLAYERS;
use vx_world::{Lifted, Pass, Report, Seats, SettleError, Unsettled, World};

// How many calls each player makes, and how many ticks and edits are made meanwhile.
const CALLS: i32 = 100;

const TICKS: u64 = 5;

const EDITS: i32 = 20;

/// Three players call at once while ticks are made and the policy is edited, and each tick is made.
pub fn three_players<
    A: Places + Send + Sync,
    B: Seats + Send + Sync,
    R: Threads + Wait + Abort + Sync,
>(
    rt: &R,
    alloc: Global,
    world: &World<A, B>,
    desk: &Desk<A, &R>,
    keeper: &mut Keeper<A>,
    passes: &mut [Pass<A, B>],
) -> Result<(), Fail> {
    let (ann, others) = passes.split_first_mut().ok_or("no pass")?;
    let (bob, others) = others.split_first_mut().ok_or("no pass")?;
    let (cyd, _) = others.split_first_mut().ok_or("no pass")?;
    let (_, (_, (_, (edited, ticked)))) = thread::join(
        rt,
        || play(rt, world, ann),
        || {
            thread::join(
                rt,
                || play(rt, world, bob),
                || {
                    thread::join(
                        rt,
                        || play(rt, world, cyd),
                        || {
                            thread::join(
                                rt,
                                || edit(rt, alloc, desk),
                                || tick(rt, alloc, world, keeper),
                            )
                        },
                    )
                },
            )
        },
    );
    assert!(rt; edited && ticked);
    Ok(())
}

/// All players call at once, each on a thread of his own, and ticks are made meanwhile.
pub fn all_players<
    A: Places + Send + Sync,
    B: Seats + Send + Sync,
    R: Threads + Wait + Abort + Sync,
>(
    rt: &R,
    alloc: Global,
    world: &World<A, B>,
    keeper: &mut Keeper<A>,
    passes: &mut [Pass<A, B>],
) -> Result<(), Fail> {
    let (_, ticked) = thread::join(
        rt,
        || thread::for_each_mut(rt, passes, MAX_PLAYERS, &|_, pass| play(rt, world, pass)),
        || tick(rt, alloc, world, keeper),
    );
    assert!(rt; ticked);
    Ok(())
}

// Places and breaks stone here and there in the world.
fn play<A: Places, B: Seats, R: Wait>(rt: &R, world: &World<A, B>, pass: &mut Pass<A, B>) {
    for turn in 0..CALLS {
        let p = Pos::new(turn % 32, 1, turn % 7);
        let cmd = if turn % 3 == 0 {
            Cmd::Break(p)
        } else {
            Cmd::Place(p, Part::Stone)
        };
        let _ = world.submit(rt, pass, cmd, &NoGate);
    }
}

// Makes one column after another a plot of nobody, and tells whether all edits were accepted.
fn edit<A: Places, R: Wait>(rt: &R, alloc: Global, desk: &Desk<A, &R>) -> bool {
    let mut all = true;
    for x in 0..EDITS {
        all = plot(rt, alloc, desk, x).is_ok() && all;
    }
    all
}

fn plot<A: Places, R: Wait>(
    rt: &R,
    alloc: Global,
    desk: &Desk<A, &R>,
    x: i32,
) -> Result<(), AllocError> {
    let column = ShapeSpec::Cuboid(Pos::new(x, 0, 3), Pos::new(x, 63, 3));
    let edit = Edit::Define(format!(in alloc; "plot{x}")?, column);
    match desk.edit(rt, alloc, edit) {
        Ok(_) => Ok(()),
        Err(_) => Err(AllocError),
    }
}

// Whether all ticks were made.
fn tick<A: Places, B: Seats, R: Threads + Wait + Sync>(
    rt: &R,
    alloc: Global,
    world: &World<A, B>,
    keeper: &mut Keeper<A>,
) -> bool {
    let mut all = true;
    for _ in 0..TICKS {
        all = world.tick(rt, alloc, keeper, 2, &NoGate).is_ok() && all;
    }
    all
}

/// Without the pass of the third player there is no settlement, and with it there is, of all calls.
pub fn settles_with_all<A: Places, B: Seats>(
    rt: &impl Abort,
    alloc: Global,
    lifted: Lifted<A, B>,
    keeper: Keeper<A>,
    passes: Vec<Pass<A, B>>,
) -> Result<(), Fail>
    requires ledgers { (A.parts ≡ A.all + B.all) × (B.parts ≡ 2 * B.all) }
{
    let mut passes = passes;
    let Some(third) = passes.pop() else {
        return Err("no pass".into());
    };
    let Err(unsettled) = lifted.finish(alloc, keeper, passes) else {
        return Err("settled without a pass".into());
    };
    assert!(rt; unsettled.error == SettleError::Disagreement(Fault::PassMissing));
    settle_with(rt, alloc, unsettled, third)
}

fn settle_with<A: Places, B: Seats>(
    rt: &impl Abort,
    alloc: Global,
    unsettled: Unsettled<A, B>,
    pass: Pass<A, B>,
) -> Result<(), Fail>
    requires ledgers { (A.parts ≡ A.all + B.all) × (B.parts ≡ 2 * B.all) }
{
    let Unsettled {
        lifted,
        keeper,
        mut passes,
        ..
    } = unsettled;
    passes.push(pass)?;
    settles(rt, alloc, lifted, keeper, passes, (300, TICKS))
}

/// The world is settled, with all calls of so many players.
pub fn settles_all<A: Places, B: Seats>(
    rt: &impl Abort,
    alloc: Global,
    lifted: Lifted<A, B>,
    keeper: Keeper<A>,
    passes: Vec<Pass<A, B>>,
) -> Result<(), Fail>
    requires ledgers { (A.parts ≡ A.all + B.all) × (B.parts ≡ 2 * B.all) }
{
    settles(rt, alloc, lifted, keeper, passes, (6_400, TICKS))
}

/// The world is settled, with so many calls and ticks.
pub fn settles<A: Places, B: Seats>(
    rt: &impl Abort,
    alloc: Global,
    lifted: Lifted<A, B>,
    keeper: Keeper<A>,
    passes: Vec<Pass<A, B>>,
    counts: (u64, u64),
) -> Result<(), Fail>
    requires ledgers { (A.parts ≡ A.all + B.all) × (B.parts ≡ 2 * B.all) }
{
    let Ok(report) = lifted.finish(alloc, keeper, passes) else {
        return Err("not settled".into());
    };
    has_counts(rt, &report, counts);
    Ok(())
}

/// So many calls and ticks are in the report.
pub fn has_counts(rt: &impl Abort, report: &Report, counts: (u64, u64)) {
    let (calls, ticks) = counts;
    assert!(rt; report.calls() == calls);
    assert!(rt; report.ticks() == ticks);
}
