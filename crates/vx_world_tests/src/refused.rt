//! Calls that are refused for want of memory, and made again.
ghost use Rattle.std.specs.Prelude.{◌≡◌, ◌+◌, ◌*◌};

use crate::passes::{has_counts, settles};
use std::alloc::Global;
use std::process::Abort;
use std::sync::Wait;
use std::test::Fail;
use std::thread::Threads;
use vx_block::Part;
use vx_geom::{Dir, Pos};
use vx_keeper::{Keeper, Places, TickError};
use vx_sector::{Cmd, Refusal, Reply};
use vx_step::NoGate;
use vx_tick::Fate;
use vx_world::{Lifted, Pass, Seats, SettleError, Unsettled, World};

// Two pistons in one row: the first comes first in the order of positions.
const FIRST: Pos = Pos { y: 1, z: 2, x: 2 };

const SECOND: Pos = Pos { y: 1, z: 2, x: 6 };

/// Commands and a tick that memory was refused to are done the second time, and what was refused
/// left nothing.
pub fn made_again<A: Places, B: Seats, R: Threads + Wait + Abort + Sync>(
    rt: &R,
    alloc: Global,
    world: &World<A, B>,
    keeper: &mut Keeper<A>,
    passes: &mut [Pass<A, B>],
) -> Result<(), Fail> {
    let pass = passes.first_mut().ok_or("no pass")?;
    act_again(rt, world, pass);
    build_again(rt, world, pass);
    tick_again(rt, alloc, world, keeper);
    Ok(())
}

// Dust is placed, and a chest that then takes something and is opened.
fn act_again<A: Places, B: Seats, R: Wait + Abort>(
    rt: &R,
    world: &World<A, B>,
    pass: &mut Pass<A, B>,
) {
    let chest = Pos::new(6, 1, 5);
    let put = Cmd::Put {
        at: chest,
        slot: 0,
        item: 7,
        count: 3,
    };
    for cmd in [
        Cmd::Place(Pos::new(5, 1, 5), Part::Dust),
        Cmd::Place(chest, Part::Chest),
        put,
        Cmd::OpenChest(chest),
    ] {
        assert!(rt; submit_again(rt, world, pass, cmd).is_ok());
    }
}

// Two pistons with a stone before each, which their levers let push into the same cell.
fn build_again<A: Places, B: Seats, R: Wait + Abort>(
    rt: &R,
    world: &World<A, B>,
    pass: &mut Pass<A, B>,
) {
    for (piston, facing, stone) in [(FIRST, Dir::East, 3), (SECOND, Dir::West, 5)] {
        let lever = Pos::new(piston.x, 1, 3);
        let sticky = false;
        for cmd in [
            Cmd::Place(piston, Part::Piston { facing, sticky }),
            Cmd::Place(Pos::new(stone, 1, 2), Part::Stone),
            Cmd::Place(lever, Part::Lever(Dir::Down)),
            Cmd::Turn(lever),
        ] {
            assert!(rt; submit_again(rt, world, pass, cmd).is_ok());
        }
    }
}

// Carries out a command, a second time where memory was refused to the first.
fn submit_again<A: Places, B: Seats, R: Wait>(
    rt: &R,
    world: &World<A, B>,
    pass: &mut Pass<A, B>,
    cmd: Cmd,
) -> Result<Reply, Refusal> {
    match world.submit(rt, pass, cmd, &NoGate) {
        Err(Refusal::NoMemory) => world.submit(rt, pass, cmd, &NoGate),
        answer => answer,
    }
}

fn tick_again<A: Places, B: Seats, R: Threads + Wait + Abort + Sync>(
    rt: &R,
    alloc: Global,
    world: &World<A, B>,
    keeper: &mut Keeper<A>,
) {
    let ticked = match world.tick(rt, alloc, keeper, 1, &NoGate) {
        Ok(fates) => Ok(fates),
        Err(error) => {
            assert!(rt; error == TickError::NoMemory);
            assert!(rt; keeper.archive().ticks().is_empty());
            world.tick(rt, alloc, keeper, 1, &NoGate)
        }
    };
    let due = [(FIRST, Fate::Moved), (SECOND, Fate::Beaten(FIRST))];
    assert!(rt; ticked.is_ok_and(|fates| fates.as_slice() == due.as_slice()));
    assert!(rt; keeper.archive().ticks().len() == 1);
}

/// So is a settlement.
pub fn finished_again<A: Places, B: Seats>(
    rt: &impl Abort,
    alloc: Global,
    lifted: Lifted<A, B>,
    keeper: Keeper<A>,
    passes: Vec<Pass<A, B>>,
) -> Result<(), Fail>
    requires ledgers { (A.parts ≡ A.all + B.all) × (B.parts ≡ 2 * B.all) }
{
    let counts = (12, 1);
    let unsettled = match lifted.finish(alloc, keeper, passes) {
        Ok(report) => {
            has_counts(rt, &report, counts);
            return Ok(());
        }
        Err(unsettled) => unsettled,
    };
    assert!(rt; unsettled.error == SettleError::NoMemory);
    let Unsettled {
        lifted,
        keeper,
        passes,
        ..
    } = unsettled;
    settles(rt, alloc, lifted, keeper, passes, counts)
}
