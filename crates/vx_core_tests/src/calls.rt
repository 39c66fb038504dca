//! The calls of a player, beside the record of a sector.
use crate::same::same;
use std::alloc::Global;
use std::process::Abort;
use std::test::Fail;
use vx_block::Part;
use vx_cells::Cells;
use vx_decide::Rule;
use vx_geom::{Bounds, LOW_HEIGHT, Pos};
use vx_policy::{Policy, Version};
use vx_record::{
    Archive, Call, Caller, Fault, Lists, Opening, Place, are_seated, began_with, disagreement,
    follows, says,
};
use vx_region::Name;
use vx_sector::{Cmd, Fresh, Refusal, Reply, Seat, Sector};

// Where a chest is placed.
const AT: Pos = Pos { x: 5, y: 1, z: 5 };

const DONE: Result<Reply, Refusal> = Ok(Reply::Done(Rule::Default));

const OUTSIDE: Result<Reply, Refusal> = Err(Refusal::OutOfWorld);

const NOTHING: Result<Reply, Refusal> = Err(Refusal::Nothing);

// A player's list for the one sector of a world.
#[derive(Drop)]
struct Pass {
    seat: u8,
    lists: Lists,
}

impl Caller for Pass {
    ghost caller = { λ p. record { seat = p.seat; lists = p.lists } };

    fn seat(&self) -> u8 {
        self.seat
    }

    fn lists(&self) -> &Lists {
        &self.lists
    }
}

// The place of a sector.
#[derive(Drop)]
struct Slot {
    home: Option<Sector>,
}

// What the one sector is to be.
#[derive(Drop)]
struct Known {
    base: Cells,
    version: Version,
    closed: u64,
    opening: Opening,
}

impl Place for Slot {
    type Keeper = Known;

    ghost sector = { λ s. s.home };

    ghost known = { λ keeper k. record {
      base = keeper.base;
      version = keeper.version;
      closed = keeper.closed;
      names = keeper.opening.names;
    } };

    ghost count = { λ keeper. 1 };

    fn sector(&self) -> Option<&Sector> {
        self.home.as_ref()
    }

    fn is_known(&self, _at: usize, keeper: &Known) -> bool {
        match &self.home {
            Some(sector) => {
                began_with(sector, &keeper.base, &keeper.version)
                    && follows(sector, keeper.closed, &keeper.opening)
            }
            None => false,
        }
    }
}

// A list has the recorded calls alone, with what a chest showed, and the record says them.
#[test]
fn a_list_has_what_the_record_says(rt: HostRuntime) -> Result<(), Fail> {
    let opening = opening(rt.alloc())?;
    in_a_sector(&rt, rt.alloc(), &opening)
}

fn in_a_sector(rt: &impl Abort, alloc: Global, opening: &Opening) -> Result<(), Fail> {
    let mut sector = sector(alloc, opening)?;
    listed(rt, alloc, opening, &mut sector)
}

fn listed(
    rt: &impl Abort,
    alloc: Global,
    opening: &Opening,
    sector: &mut Sector,
) -> Result<(), Fail> {
    let mut lists = Lists::new(alloc, 1)?;
    called(rt, &mut lists, sector)?;
    told(rt, &lists, sector)?;
    recorded(rt, alloc, opening, &lists, sector)
}

fn called(rt: &impl Abort, lists: &mut Lists, sector: &mut Sector) -> Result<(), Fail> {
    let seat = bob()?;
    let place = Cmd::Place(AT, Part::Chest);
    answers(rt, lists, sector, &seat, place, DONE);
    opens(rt, lists, sector, &seat);
    let look = Cmd::Look(Pos::new(99, 1, 5));
    answers(rt, lists, sector, &seat, look, OUTSIDE);
    let dig = Cmd::Break(Pos::new(6, 1, 5));
    answers(rt, lists, sector, &seat, dig, NOTHING);
    Ok(())
}

// A command in the sector, as the player lists it, has this answer.
fn answers(
    rt: &impl Abort,
    lists: &mut Lists,
    sector: &mut Sector,
    seat: &Seat,
    cmd: Cmd,
    due: Result<Reply, Refusal>,
) {
    assert!(rt; lists.len() == 1);
    same(rt, &lists.act(0, sector, *seat, cmd), &due);
}

fn opens(rt: &impl Abort, lists: &mut Lists, sector: &mut Sector, seat: &Seat) {
    assert!(rt; lists.len() == 1);
    let opened = lists.act(0, sector, *seat, Cmd::OpenChest(AT));
    assert!(rt; matches!(opened, Ok(Reply::Opened(Rule::Default, _))));
}

fn told(rt: &impl Abort, lists: &Lists, sector: &Sector) -> Result<(), Fail> {
    assert!(rt; lists.len() == 1);
    let calls = lists.calls(0);
    assert!(rt; calls.len() == 3);
    same(rt, &sector.entries().len(), &3);
    let all = calls.iter().zip(sector.entries());
    for (call, entry) in all {
        assert!(rt; call.is_in(entry));
    }
    assert!(rt; says(calls, 0, 0, &[], sector.entries()));
    assert!(rt; !says(calls, 1, 0, &[], sector.entries()));
    assert!(rt; !says(&calls[1..], 0, 0, &[], sector.entries()));
    Ok(())
}

fn recorded(
    rt: &impl Abort,
    alloc: Global,
    opening: &Opening,
    lists: &Lists,
    sector: &Sector,
) -> Result<(), Fail> {
    let mut archive = archive(alloc, opening)?;
    archive.reserve()?;
    kept(rt, &archive, lists, sector);
    let chronicle = archive.into_chronicle();
    assert!(rt; chronicle.ticks.is_empty());
    Ok(())
}

fn kept(rt: &impl Abort, archive: &Archive, lists: &Lists, sector: &Sector) {
    assert!(rt; archive.ticks().is_empty());
    assert!(rt; archive.says(first(lists), 0, 0, sector.entries()));
    assert!(rt; are_seated(archive.opening(), sector.entries()));
}

fn archive(alloc: Global, opening: &Opening) -> Result<Archive, Fail> {
    Ok(Archive::new(alloc, opening.try_clone()?)?)
}

fn first(lists: &Lists) -> &[Call] {
    if lists.len() == 0 {
        return &[];
    }
    lists.calls(0)
}

// One sector of air, for bob.
fn opening(alloc: Global) -> Result<Opening, Fail> {
    let bounds = Bounds::new(1, 1, 1, LOW_HEIGHT).ok_or("no bounds")?;
    let mut names = Vec::new(alloc);
    names.push(Name::read("bob")?)?;
    let policy = Policy::new(alloc)?;
    match Opening::new(alloc, bounds, names, policy) {
        Ok(opening) => Ok(opening),
        Err(_) => Err("no opening")?,
    }
}

// That sector in its first window.
fn sector(alloc: Global, opening: &Opening) -> Result<Sector, Fail> {
    let Some(cells) = opening.terrain().sectors().first() else {
        return Err("no sector")?;
    };
    let version = version(opening)?;
    let fresh = Fresh::over(alloc, cells.try_clone()?, &version)?;
    Ok(Sector::new(fresh))
}

fn version(opening: &Opening) -> Result<Version, Fail> {
    Ok(Version {
        tick: 1,
        edits: 0,
        policy: opening.policy().try_clone()?,
    })
}

fn bob() -> Result<Seat, Fail> {
    Ok(Seat {
        number: 0,
        name: Name::read("bob")?,
    })
}

// Where all agree nothing is found; else what does not agree.
#[test]
fn a_settlement_finds_what_does_not_agree(rt: HostRuntime) -> Result<(), Fail> {
    let opening = opening(rt.alloc())?;
    judged(&rt, rt.alloc(), &opening)
}

fn judged(rt: &impl Abort, alloc: Global, opening: &Opening) -> Result<(), Fail> {
    let known = what_is_known(opening)?;
    filed(rt, alloc, opening, &known)
}

fn filed(rt: &impl Abort, alloc: Global, opening: &Opening, known: &Known) -> Result<(), Fail> {
    let archive = archive(alloc, opening)?;
    acted(rt, alloc, opening, known, &archive)
}

fn acted(
    rt: &impl Abort,
    alloc: Global,
    opening: &Opening,
    known: &Known,
    archive: &Archive,
) -> Result<(), Fail> {
    let (pass, home) = played(rt, alloc, opening)?;
    compared(rt, alloc, &pass, &home, known, archive)
}

fn compared(
    rt: &impl Abort,
    alloc: Global,
    pass: &Pass,
    home: &Slot,
    known: &Known,
    archive: &Archive,
) -> Result<(), Fail> {
    let silent = silent(alloc)?;
    same(rt, &found(pass, home, known, archive), &None);
    same(
        rt,
        &found(&silent, home, known, archive),
        &Some(Fault::ListsDiffer(0, 0)),
    );
    let away = [Slot { home: None }];
    same(
        rt,
        &found(pass, &away[0], known, archive),
        &Some(Fault::Torn(0)),
    );
    let nobody: [Pass; 0] = [];
    same(
        rt,
        &disagreement(&nobody, 1, &away, known, archive),
        &Some(Fault::PassMissing),
    );
    Ok(())
}

fn silent(alloc: Global) -> Result<Pass, Fail> {
    let lists = Lists::new(alloc, 1)?;
    Ok(Pass { seat: 0, lists })
}

fn played(rt: &impl Abort, alloc: Global, opening: &Opening) -> Result<(Pass, Slot), Fail> {
    let mut sector = sector(alloc, opening)?;
    let lists = calls_in(rt, alloc, &mut sector)?;
    let home = Some(sector);
    Ok((Pass { seat: 0, lists }, Slot { home }))
}

fn calls_in(rt: &impl Abort, alloc: Global, sector: &mut Sector) -> Result<Lists, Fail> {
    let mut lists = Lists::new(alloc, 1)?;
    called(rt, &mut lists, sector)?;
    Ok(lists)
}

// What is found of one pass and one sector.
fn found(pass: &Pass, slot: &Slot, known: &Known, archive: &Archive) -> Option<Fault> {
    let passes = std::slice::from_ref(pass);
    let places = std::slice::from_ref(slot);
    if pass.lists.len() != 1 {
        return None;
    }
    disagreement(passes, 1, places, known, archive)
}

fn what_is_known(opening: &Opening) -> Result<Known, Fail> {
    let Some(cells) = opening.terrain().sectors().first() else {
        return Err("no sector")?;
    };
    over(cells.try_clone()?, opening)
}

// What is known over this base. Each `?` lets go what is owned, so there is one a function.
fn over(base: Cells, opening: &Opening) -> Result<Known, Fail> {
    let version = version(opening)?;
    since(base, version, opening)
}

// What is known since this version.
fn since(base: Cells, version: Version, opening: &Opening) -> Result<Known, Fail> {
    Ok(Known {
        opening: opening.try_clone()?,
        base,
        version,
        closed: 0,
    })
}
