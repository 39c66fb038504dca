//! The windows of a sector, by its calls.
ghost use Rattle.std.specs.Prelude.{◌≡◌, IfOk};

use crate::same::same;
use std::alloc::{AllocError, Global};
use std::process::Abort;
use std::test::Fail;
use vx_block::{Cell, Part};
use vx_cells::Cells;
use vx_decide::Rule;
use vx_file::read_policy;
use vx_geom::{Bounds, LOW_HEIGHT, Pos};
use vx_policy::{Policy, Version};
use vx_region::{Name, RegionNo};
use vx_sector::{Cmd, Entry, Fresh, Refusal, Reply, Seat, Sector, Sight};

// What a command is answered.
type Answer = Result<Reply, Refusal>;

const DONE: Answer = Ok(Reply::Done(Rule::Default));

const DENIED: Answer = Err(Refusal::Denied(Rule::Member { at: RegionNo(1) }));

const PLACE: Pos = Pos { x: 6, y: 1, z: 5 };

const CHEST: Pos = Pos { x: 1, y: 0, z: 1 };

const HOME: &[u8] = b"version = 1\n[[region]]\nid = 'home'\ncuboid = [6, 0, 5, 6, 63, 5]\n";

// Bob is a stranger where the first version judges, and nobody is where the second does.
#[test]
fn a_window_is_judged_by_its_version(rt: HostRuntime) -> Result<(), Fail> {
    let bob = bob()?;
    let mut sector = opened(&rt, rt.alloc())?;
    two_windows(&rt, rt.alloc(), &mut sector, &bob)?;
    leaves(&rt, sector, &bob);
    Ok(())
}

fn leaves(rt: &impl Abort, sector: Sector, bob: &Seat) {
    let left = sector.into_entries();
    same(rt, &left.as_slice(), &[done(bob)].as_slice());
}

fn two_windows(
    rt: &impl Abort,
    alloc: Global,
    sector: &mut Sector,
    bob: &Seat,
) -> Result<(), Fail> {
    play(rt, sector, &refused(bob));
    let next = next_of(alloc, sector.cells())?;
    second_window(rt, sector, next, bob);
    Ok(())
}

fn second_window(rt: &impl Abort, sector: &mut Sector, next: Fresh, bob: &Seat)
    requires { next.cells ≡ sector.old.cells }
{
    let closed = sector.renew(next);
    same(rt, &closed.as_slice(), &refused(bob).as_slice());
    judged_anew(rt, sector, &[done(bob)]);
}

fn refused(bob: &Seat) -> [Entry; 2] {
    [
        entry(bob, Cmd::Break(PLACE), DENIED),
        entry(
            bob,
            Cmd::Look(PLACE),
            Ok(Reply::Seen(Sight::new(Cell::Stone))),
        ),
    ]
}

fn done(bob: &Seat) -> Entry {
    entry(bob, Cmd::Break(PLACE), DONE)
}

fn judged_anew(rt: &impl Abort, sector: &mut Sector, calls: &[Entry]) {
    stands(rt, sector, (2, 2, 2), true);
    play(rt, sector, calls);
    stands(rt, sector, (2, 3, 2), false);
}

// The entries of closed windows and of all, the number of the version, and whether the cells are
// those with which the window began.
fn stands(rt: &impl Abort, sector: &Sector, due: (u64, u64, u64), is_base: bool) {
    same(
        rt,
        &(sector.closed(), sector.count(), sector.version().tick),
        &due,
    );
    same(rt, &(sector.base() == sector.cells()), &is_base);
}

// Gives the commands one after another, compares the answers, and finds them in the record.
fn play(rt: &impl Abort, sector: &mut Sector, calls: &[Entry]) {
    for call in calls {
        answers(rt, sector, call);
    }
    same(rt, &sector.entries(), &calls);
}

fn answers(rt: &impl Abort, sector: &mut Sector, call: &Entry) {
    let cmd = call.cmd;
    same(rt, &sector.act(call.seat, cmd), &call.answer);
}

// One chest is placed, filled, opened, emptied and broken, and a denial goes on record.
#[test]
fn a_command_that_memory_was_refused_to_is_done_again(rt: HostRuntime) -> Result<(), Fail> {
    let bob = bob()?;
    let mut sector = opened(&rt, rt.alloc())?;
    does_all(&rt, &mut sector, &bob);
    Ok(())
}

fn does_all(rt: &impl Abort, sector: &mut Sector, bob: &Seat) {
    let (at, slot, item, count) = (CHEST, 0, 7, 3);
    let commands = [
        Cmd::Place(at, Part::Chest),
        Cmd::Put {
            at,
            slot,
            item,
            count,
        },
        Cmd::OpenChest(at),
        Cmd::Take { at, slot, count },
        Cmd::Break(at),
        Cmd::Look(at),
        Cmd::Break(PLACE),
    ];
    for cmd in commands {
        does_again(rt, sector, bob, cmd);
    }
    assert!(rt; sector.count() == 7);
}

// What memory was refused to left no entry.
fn does_again(rt: &impl Abort, sector: &mut Sector, bob: &Seat, cmd: Cmd) {
    let before = sector.count();
    let answer = sector.act(*bob, cmd);
    if answer != Err(Refusal::NoMemory) {
        is_due(rt, cmd, &answer);
        return;
    }
    assert!(rt; sector.count() == before);
    is_due(rt, cmd, &sector.act(*bob, cmd));
}

fn is_due(rt: &impl Abort, cmd: Cmd, answer: &Answer) {
    match cmd {
        Cmd::Look(_) => same(rt, answer, &Ok(Reply::Seen(Sight::new(Cell::Air)))),
        Cmd::OpenChest(_) => assert!(rt; matches!(answer, Ok(Reply::Opened(_, _)))),
        Cmd::Break(p) if p == PLACE => same(rt, answer, &DENIED),
        _ => same(rt, answer, &DONE),
    }
}

// The second window over these cells, under a policy without regions.
fn next_of(alloc: Global, cells: &Cells) -> Result<Fresh, Fail>
    ensures { IfOk result (λ fresh. fresh.cells ≡ cells.now) }
{
    let version = version(2, Policy::new(alloc)?);
    begun(alloc, cells, &version)
}

// A sector of one chunk with a stone at one place, and air everywhere else.
fn opened(rt: &impl Abort, alloc: Global) -> Result<Sector, Fail> {
    let mut start = air(alloc)?;
    put_stone(rt, &mut start)?;
    first_window(alloc, &start)
}

fn air(alloc: Global) -> Result<Cells, Fail> {
    let bounds = Bounds::new(1, 1, 1, LOW_HEIGHT).ok_or("no bounds")?;
    Ok(Cells::new(alloc, bounds, 0)?)
}

fn put_stone(rt: &impl Abort, cells: &mut Cells) -> Result<(), AllocError> {
    assert!(rt; cells.holds(PLACE));
    cells.set(PLACE, Cell::Stone)
}

// The first window over these cells, judged by the policy of a file.
fn first_window(alloc: Global, cells: &Cells) -> Result<Sector, Fail> {
    let version = version(1, read_policy(alloc, HOME)?);
    Ok(Sector::new(begun(alloc, cells, &version)?))
}

// A window over these cells.
fn begun(alloc: Global, cells: &Cells, version: &Version) -> Result<Fresh, Fail>
    ensures { IfOk result (λ fresh. fresh.cells ≡ cells.now) }
{
    let fresh = Fresh::new(alloc, cells.bounds(), cells.sector(), cells, version)?;
    Ok(fresh)
}

fn version(tick: u64, policy: Policy) -> Version {
    Version {
        tick,
        edits: 0,
        policy,
    }
}

fn bob() -> Result<Seat, Fail> {
    let name = Name::read("bob")?;
    Ok(Seat { number: 1, name })
}

fn entry(seat: &Seat, cmd: Cmd, answer: Answer) -> Entry {
    Entry {
        seat: *seat,
        cmd,
        answer,
    }
}
