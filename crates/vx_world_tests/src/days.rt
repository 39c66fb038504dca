//! Worlds that are opened for a test, each in a function that is generic in their ledgers.
ghost use Rattle.std.specs.Prelude.{◌≡◌, ◌+◌, ◌*◌, length};

use crate::audits::Audit;
use crate::{audits, explaining, gates, machines, passes, refused, ticks, torn};
use std::alloc::Global;
use std::marker::Brand;
use std::process::Abort;
use std::sync::Wait;
use std::test::Fail;
use std::thread::Threads;
use vx_board::{Desk, MAX_VIEWS, Opened};
use vx_geom::{Bounds, LOW_HEIGHT, Pos};
use vx_keeper::{Keeper, Places};
use vx_policy::Policy;
use vx_record::Opening;
use vx_region::Name;
use vx_sector::Cmd;
use vx_windows::MAX_PLAYERS;
use vx_world::{Blanks, Lifted, Pass, Seats, World};

/// What is done with a world of ann, bob and cyd, or of as many players as it may have, whose
/// sectors have their first border at x 15/16.
#[derive(Clone, Copy)]
pub enum Day {
    /// A command waits at the gate in one sector while one in the other is answered.
    TwoSectors,
    /// Two workers of a tick are at work at once.
    TwoWorkers,
    /// Three players play on three threads, and ticks are made meanwhile.
    ThreePlayers,
    /// As many players as a world may have play on as many threads, and ticks are made meanwhile.
    AllPlayers,
    /// A sector is changed past the rules.
    Tampered,
    /// What was put down is seen after a tick, in each sector.
    SeenAfterATick,
    /// An edit counts from the next window on.
    EditsCountNext,
    /// What memory was refused to is called again.
    MadeAgain,
    /// Machines step, with so many workers, in a world of three sectors.
    Machines(usize),
    /// A view explains before and after an edit, and a command is made between.
    Explained,
    /// Ann and bob play, and the record is audited by these marks.
    Audited(Audit),
    /// The desk is gone before a tick.
    DeskGone,
}

/// Opens a world and spends the day in it.
pub fn spend<R: Threads + Wait + Abort + Sync>(
    rt: &R,
    alloc: Global,
    day: Day,
) -> Result<(), Fail> {
    let opening = opening(alloc, day)?;
    let blanks = Blanks::new(&opening);
    spend_in::<Brand, Brand, R>(rt, alloc, opening, blanks, Opened::new(), day)
}

fn opening(alloc: Global, day: Day) -> Result<Opening, Fail> {
    match day {
        Day::Machines(_) => machines::opening(alloc, players(alloc)?),
        Day::AllPlayers => empty(alloc, all_players(alloc)?),
        _ => empty(alloc, players(alloc)?),
    }
}

// Two sectors of air, without regions.
fn empty(alloc: Global, players: Vec<Name>) -> Result<Opening, Fail> {
    let bounds = Bounds::new(2, 1, 1, LOW_HEIGHT).ok_or("no bounds")?;
    Ok(Opening::new(alloc, bounds, players, Policy::new(alloc)?)?)
}

// As many names as a world may have players.
fn all_players(alloc: Global) -> Result<Vec<Name>, Fail> {
    let mut names = Vec::with_capacity(alloc, MAX_PLAYERS)?;
    for number in 0..MAX_PLAYERS {
        let text = format!(in alloc; "p{number}")?;
        names.push(Name::read(&text).map_err(|_| "no name")?)?;
    }
    Ok(names)
}

fn players(alloc: Global) -> Result<Vec<Name>, Fail> {
    let mut names = Vec::with_capacity(alloc, 3)?;
    for text in ["ann", "bob", "cyd"] {
        names.push(Name::read(text).map_err(|_| "no name")?)?;
    }
    Ok(names)
}

fn spend_in<A: Places + Send + Sync, B: Seats + Send + Sync, R: Threads + Wait + Abort + Sync>(
    rt: &R,
    alloc: Global,
    opening: Opening,
    blanks: Blanks,
    edits: Opened,
    day: Day,
) -> Result<(), Fail>
    requires places { (blanks.places.name ≡ A.name) × (blanks.places.parts ≡ A.parts) }
    requires seats { (blanks.seats.name ≡ B.name) × (blanks.seats.parts ≡ B.parts) }
    requires marks { blanks.marks ≡ A.book }
    requires sectors { (length opening.terrain.sectors ≡ A.all) × (A.parts ≡ A.all + B.all) }
    requires names { (length opening.names ≡ B.all) × (B.parts ≡ 2 * B.all) }
    requires first { opening.policy ≡ A.first }
    requires edits { edits ≡ A.edits }
{
    let mut desk = Desk::new(rt, alloc, opening.policy().try_clone()?, edits, MAX_VIEWS)?;
    let view = desk.first_view();
    let (world, mut keeper, mut passes) = World::<A, B>::new(alloc, opening, view, blanks)?;
    played(rt, alloc, day, &world, &desk, &mut keeper, &mut passes)?;
    drop(desk);
    if matches!(day, Day::DeskGone) {
        torn::no_tick(rt, alloc, &world, &mut keeper, &mut passes)?;
    }
    settled(rt, alloc, day, world.lift(), keeper, passes)
}

// What is done while the world stands.
fn played<A: Places + Send + Sync, B: Seats + Send + Sync, R: Threads + Wait + Abort + Sync>(
    rt: &R,
    alloc: Global,
    day: Day,
    world: &World<A, B>,
    desk: &Desk<A, &R>,
    keeper: &mut Keeper<A>,
    passes: &mut [Pass<A, B>],
) -> Result<(), Fail> {
    match day {
        Day::TwoSectors => gates::two_sectors(rt, world, passes),
        Day::TwoWorkers => gates::two_workers(rt, alloc, world, keeper, passes),
        Day::ThreePlayers => passes::three_players(rt, alloc, world, desk, keeper, passes),
        Day::AllPlayers => passes::all_players(rt, alloc, world, keeper, passes),
        Day::Tampered => torn::tampered(rt, alloc, world, keeper, passes),
        Day::SeenAfterATick => ticks::seen_after_a_tick(rt, alloc, world, keeper, passes),
        Day::EditsCountNext => ticks::edits_count_next(rt, alloc, world, desk, keeper, passes),
        Day::MadeAgain => refused::made_again(rt, alloc, world, keeper, passes),
        Day::Machines(workers) => machines::step(rt, alloc, world, keeper, passes, workers),
        Day::Explained => explaining::explained_and_done(rt, alloc, world, desk, passes),
        Day::Audited(_) => audits::play(rt, alloc, world, desk, keeper, passes),
        Day::DeskGone => Ok(()),
    }
}

// What is done once it has ended.
fn settled<A: Places, B: Seats>(
    rt: &impl Abort,
    alloc: Global,
    day: Day,
    lifted: Lifted<A, B>,
    keeper: Keeper<A>,
    passes: Vec<Pass<A, B>>,
) -> Result<(), Fail>
    requires ledgers { (A.parts ≡ A.all + B.all) × (B.parts ≡ 2 * B.all) }
{
    match day {
        Day::ThreePlayers => passes::settles_with_all(rt, alloc, lifted, keeper, passes),
        Day::AllPlayers => passes::settles_all(rt, alloc, lifted, keeper, passes),
        Day::Tampered => torn::is_not_settled(rt, alloc, lifted, keeper, passes),
        Day::MadeAgain => refused::finished_again(rt, alloc, lifted, keeper, passes),
        Day::Audited(audit) => audits::tells(rt, alloc, lifted, keeper, passes, audit),
        _ => Ok(()),
    }
}

#[test]
fn sectors_answer_apart(rt: HostRuntime) -> Result<(), Fail> {
    spend(&rt, rt.alloc(), Day::TwoSectors)
}

#[test]
fn workers_of_a_tick_meet(rt: HostRuntime) -> Result<(), Fail> {
    spend(&rt, rt.alloc(), Day::TwoWorkers)
}

#[test]
fn players_settle_in_the_end(rt: HostRuntime) -> Result<(), Fail> {
    spend(&rt, rt.alloc(), Day::ThreePlayers)
}

#[test]
fn as_many_players_as_may_be_settle_in_the_end(rt: HostRuntime) -> Result<(), Fail> {
    spend(&rt, rt.alloc(), Day::AllPlayers)
}

#[test]
fn a_torn_sector_stops_ticks(rt: HostRuntime) -> Result<(), Fail> {
    spend(&rt, rt.alloc(), Day::Tampered)
}

#[test]
fn each_sector_is_put_back(rt: HostRuntime) -> Result<(), Fail> {
    spend(&rt, rt.alloc(), Day::SeenAfterATick)
}

#[test]
fn an_edit_counts_from_the_next_window(rt: HostRuntime) -> Result<(), Fail> {
    spend(&rt, rt.alloc(), Day::EditsCountNext)
}

#[test]
fn what_was_refused_is_done_again(rt: HostRuntime) -> Result<(), Fail> {
    spend(&rt, rt.alloc(), Day::MadeAgain)
}

#[test]
fn machines_step_by_one_worker(rt: HostRuntime) -> Result<(), Fail> {
    spend(&rt, rt.alloc(), Day::Machines(1))
}

#[test]
fn machines_step_by_two_workers(rt: HostRuntime) -> Result<(), Fail> {
    spend(&rt, rt.alloc(), Day::Machines(2))
}

#[test]
fn machines_step_by_eight_workers(rt: HostRuntime) -> Result<(), Fail> {
    spend(&rt, rt.alloc(), Day::Machines(8))
}

#[test]
fn a_view_explains_beside_a_command(rt: HostRuntime) -> Result<(), Fail> {
    spend(&rt, rt.alloc(), Day::Explained)
}

#[test]
fn no_tick_is_made_without_a_desk(rt: HostRuntime) -> Result<(), Fail> {
    spend(&rt, rt.alloc(), Day::DeskGone)
}

#[test]
fn an_audit_finds_no_difference_in_what_was_done(rt: HostRuntime) -> Result<(), Fail> {
    spend(&rt, rt.alloc(), Day::Audited(Audit::Done))
}

#[test]
fn an_audit_finds_the_first_call_that_differs(rt: HostRuntime) -> Result<(), Fail> {
    spend(&rt, rt.alloc(), Day::Audited(Audit::OtherCalls))
}

#[test]
fn an_audit_finds_ticks_and_edits_that_differ(rt: HostRuntime) -> Result<(), Fail> {
    spend(&rt, rt.alloc(), Day::Audited(Audit::OtherTicks))
}

#[test]
fn an_audit_takes_the_calls_of_a_block_in_any_order(rt: HostRuntime) -> Result<(), Fail> {
    spend(&rt, rt.alloc(), Day::Audited(Audit::InBlocks))
}

#[test]
fn an_audit_finds_blocks_that_differ(rt: HostRuntime) -> Result<(), Fail> {
    spend(&rt, rt.alloc(), Day::Audited(Audit::OtherBlocks))
}
