//! The core machine, event by event.
use crate::same::same;
use std::alloc::{AllocError, Global};
use std::process::Abort;
use std::test::Fail;
use vx_block::{Cell, Part};
use vx_core::{Core, Event, Opening, OpeningError, Stage, Tick, run_core};
use vx_decide::Rule;
use vx_geom::{Bounds, LOW_HEIGHT, Pos, ShapeSpec};
use vx_policy::{Edit, Policy};
use vx_region::{Name, RegionNo};
use vx_sector::{Cmd, Entry, Refusal, Reply, Seat};
use vx_step::Phase;
use vx_windows::MAX_PLAYERS;

const DENIED: Result<Reply, Refusal> = Err(Refusal::Denied(Rule::Member { at: RegionNo(1) }));

// An edit counts from the next tick on, one that is refused does not count, and in a sector that is
// away nobody acts. A command that is refused for what stands there is on record.
#[test]
fn a_tick_between_two_windows_goes_on_record(rt: HostRuntime) -> Result<(), Fail> {
    let opening = opening(rt.alloc(), 1)?;
    let plot = plot(rt.alloc())?;
    let core = worked(rt.alloc(), &opening, plot)?;
    told(&rt, &core)
}

// What is left of two windows and the tick between them, with this edit in the first.
fn worked(alloc: Global, opening: &Opening, edit: Edit) -> Result<Core, AllocError> {
    let gone = Edit::Remove(String::from_str(alloc, "nowhere")?);
    let events = [
        Event::Edit(edit),
        Event::Edit(gone),
        place(5, 1),
        Event::Act(0, break_of_air()),
        Event::Take(0),
        place(6, 1),
        Event::Take(1),
        Event::Work(Phase::Parts, 0),
        Event::Work(Phase::Fates, 0),
        Event::Work(Phase::Parts, 1),
        Event::Work(Phase::Fates, 0),
        Event::Work(Phase::Fates, 1),
        Event::Fix,
        Event::Work(Phase::Cells, 0),
        Event::Work(Phase::Cells, 1),
        Event::Fix,
        Event::Fix,
        Event::Put(0),
        place(5, 2),
        Event::Take(0),
        Event::Put(1),
    ];
    run_core(alloc, opening, &events)
}

fn told(rt: &impl Abort, core: &Core) -> Result<(), Fail> {
    same(
        rt,
        &core.stages.as_slice(),
        &[Stage::Home, Stage::Home].as_slice(),
    );
    same(rt, &core.edits.len(), &1);
    assert!(rt; core.chronicle.ticks.len() == 1 && core.sectors.len() == 2);
    let bob = bob()?;
    first_tick(rt, &core.chronicle.ticks[0], bob);
    has_entries(
        rt,
        core.sectors[0].entries(),
        &[entry(bob, stone(5, 2), DENIED)],
    );
    Ok(())
}

fn first_tick(rt: &impl Abort, tick: &Tick, bob: Seat) {
    same(
        rt,
        &(tick.number, tick.version.tick, tick.version.edits),
        &(1, 1, 0),
    );
    assert!(rt; tick.windows.count() == 2 && tick.fates.is_empty());
    let done = entry(bob, stone(5, 1), Ok(Reply::Done(Rule::Default)));
    let nothing = entry(bob, break_of_air(), Err(Refusal::Nothing));
    has_entries(rt, tick.windows.window(0), &[done, nothing]);
    assert!(rt; tick.windows.window(1).is_empty());
}

// The window has these entries and no others.
fn has_entries(rt: &impl Abort, window: &[Entry], due: &[Entry]) {
    same(rt, &window, &due);
}

// Parts are set inside the world, for as many players as a world may have.
#[test]
fn an_opening_has_its_parts_and_players(rt: HostRuntime) -> Result<(), Fail> {
    let mut opening = opening(rt.alloc(), MAX_PLAYERS)?;
    has_parts(&rt, &mut opening)?;
    same(&rt, &opening.names().len(), &MAX_PLAYERS);
    are_too_many(&rt, rt.alloc(), MAX_PLAYERS + 1)
}

fn has_parts(rt: &impl Abort, opening: &mut Opening) -> Result<(), AllocError> {
    let inside = Pos::new(31, 63, 15);
    let chest = Pos::new(5, 1, 5);
    is_set(rt, opening, inside, Part::Stone)?;
    is_set(rt, opening, chest, Part::Chest)?;
    let outside = Pos::new(32, 1, 5);
    is_told(rt, opening, outside, Err(Refusal::OutOfWorld));
    let map = opening.terrain().frozen();
    same(rt, &map.cell(inside), &Cell::Stone);
    same(rt, &map.cell(chest), &Cell::Chest);
    Ok(())
}

fn is_set(rt: &impl Abort, opening: &mut Opening, p: Pos, part: Part) -> Result<(), AllocError> {
    let told = opening.set(p, part);
    if told == Err(Refusal::NoMemory) {
        return Err(AllocError);
    }
    same(rt, &told, &Ok(()));
    Ok(())
}

fn is_told(rt: &impl Abort, opening: &mut Opening, p: Pos, due: Result<(), Refusal>) {
    same(rt, &opening.set(p, Part::Stone), &due);
}

fn are_too_many(rt: &impl Abort, alloc: Global, players: usize) -> Result<(), Fail> {
    let many = new(alloc, players)?;
    assert!(rt; matches!(many, Err(OpeningError::TooManyPlayers)));
    Ok(())
}

// Two sectors of air, for so many players who are all called bob.
fn opening(alloc: Global, players: usize) -> Result<Opening, Fail> {
    match new(alloc, players)? {
        Ok(opening) => Ok(opening),
        Err(OpeningError::NoMemory) => Err(AllocError)?,
        Err(OpeningError::TooManyPlayers) => Err("too many players")?,
    }
}

fn new(alloc: Global, players: usize) -> Result<Result<Opening, OpeningError>, Fail> {
    let bounds = Bounds::new(2, 1, 1, LOW_HEIGHT).ok_or("no bounds")?;
    let names = names(alloc, players)?;
    Ok(Opening::new(alloc, bounds, names, Policy::new(alloc)?))
}

fn names(alloc: Global, players: usize) -> Result<Vec<Name>, Fail> {
    let bob = Name::read("bob")?;
    let mut names = Vec::new(alloc);
    names.resize(players, bob)?;
    Ok(names)
}

// The definition of a plot of one column, of which bob is no member.
fn plot(alloc: Global) -> Result<Edit, AllocError> {
    let column = ShapeSpec::Cuboid(Pos::new(5, 0, 5), Pos::new(5, 63, 5));
    Ok(Edit::Define(String::from_str(alloc, "plot")?, column))
}

fn stone(x: i32, y: i32) -> Cmd {
    Cmd::Place(Pos::new(x, y, 5), Part::Stone)
}

fn break_of_air() -> Cmd {
    Cmd::Break(Pos::new(7, 1, 5))
}

fn place(x: i32, y: i32) -> Event {
    Event::Act(0, stone(x, y))
}

fn bob() -> Result<Seat, Fail> {
    Ok(Seat {
        number: 0,
        name: Name::read("bob")?,
    })
}

fn entry(seat: Seat, cmd: Cmd, answer: Result<Reply, Refusal>) -> Entry {
    Entry { seat, cmd, answer }
}
