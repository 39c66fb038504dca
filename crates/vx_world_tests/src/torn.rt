//! Ticks that can't be made: a sector was changed past the rules, or the desk is gone.
ghost use Rattle.std.specs.Prelude.{◌≡◌, ◌+◌, ◌*◌};

use std::alloc::Global;
use std::process::Abort;
use std::sync::Wait;
use std::test::Fail;
use std::thread::Threads;
use vx_block::Part;
use vx_geom::Pos;
use vx_keeper::{Keeper, Places, TickError};
use vx_record::Fault;
use vx_sector::{Cmd, Refusal};
use vx_step::NoGate;
use vx_world::{Lifted, Pass, Seats, SettleError, World};

// A position of the sector that nobody changed past the rules.
const HERE: Pos = Pos { x: 5, y: 1, z: 5 };

/// No tick is made of it, and what was done in the other sector stands.
pub fn tampered<A: Places, B: Seats, R: Threads + Wait + Abort + Sync>(
    rt: &R,
    alloc: Global,
    world: &World<A, B>,
    keeper: &mut Keeper<A>,
    passes: &mut [Pass<A, B>],
) -> Result<(), Fail> {
    let ann = passes.first_mut().ok_or("no pass")?;
    assert!(rt; world.tick(rt, alloc, keeper, 1, &NoGate).is_ok());
    answers(rt, world, ann, Cmd::Place(HERE, Part::Stone));
    let put = world.tamper(rt, Pos::new(20, 1, 5), Part::Stone);
    assert!(rt; matches!(put, Ok(true)));
    is_torn(rt, alloc, world, keeper);
    is_torn(rt, alloc, world, keeper);
    // A place that is taken is refused for that, so the stone stands.
    let again = world.submit(rt, ann, Cmd::Place(HERE, Part::Dirt), &NoGate);
    assert!(rt; matches!(again, Err(Refusal::Occupied)));
    answers(rt, world, ann, Cmd::Break(HERE));
    Ok(())
}

// The command is carried out.
fn answers<A: Places, B: Seats, R: Wait + Abort>(
    rt: &R,
    world: &World<A, B>,
    pass: &mut Pass<A, B>,
    cmd: Cmd,
) {
    assert!(rt; world.submit(rt, pass, cmd, &NoGate).is_ok());
}

/// The world is not settled with it, and all is handed back.
pub fn is_not_settled<A: Places, B: Seats>(
    rt: &impl Abort,
    alloc: Global,
    lifted: Lifted<A, B>,
    keeper: Keeper<A>,
    passes: Vec<Pass<A, B>>,
) -> Result<(), Fail>
    requires ledgers { (A.parts ≡ A.all + B.all) × (B.parts ≡ 2 * B.all) }
{
    let count = passes.len();
    let Err(unsettled) = lifted.finish(alloc, keeper, passes) else {
        return Err("settled".into());
    };
    let torn = SettleError::Disagreement(Fault::Torn(1));
    assert!(rt; unsettled.error == torn);
    assert!(rt; unsettled.passes.len() == count);
    assert!(rt; unsettled.keeper.archive().ticks().len() == 1);
    Ok(())
}

// The tick is not made, and the chronicle stays.
fn is_torn<A: Places, B: Seats, R: Threads + Wait + Abort + Sync>(
    rt: &R,
    alloc: Global,
    world: &World<A, B>,
    keeper: &mut Keeper<A>,
) {
    let made = world.tick(rt, alloc, keeper, 1, &NoGate);
    assert!(rt; matches!(made, Err(TickError::Torn(1))));
    assert!(rt; keeper.archive().ticks().len() == 1);
}

/// Without a desk no tick is made, and the world is played on as it was.
pub fn no_tick<A: Places, B: Seats, R: Threads + Wait + Abort + Sync>(
    rt: &R,
    alloc: Global,
    world: &World<A, B>,
    keeper: &mut Keeper<A>,
    passes: &mut [Pass<A, B>],
) -> Result<(), Fail> {
    let ann = passes.first_mut().ok_or("no pass")?;
    for x in [5, 20] {
        let made = world.tick(rt, alloc, keeper, 1, &NoGate);
        assert!(rt; matches!(made, Err(TickError::NoView)));
        assert!(rt; keeper.archive().ticks().is_empty());
        let placed = Cmd::Place(Pos::new(x, 1, 5), Part::Stone);
        assert!(rt; world.submit(rt, ann, placed, &NoGate).is_ok());
    }
    Ok(())
}
