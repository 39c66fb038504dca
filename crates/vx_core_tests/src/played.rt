//! Scripts through the core machine: what their lines say as events, one after another, and what is
//! on record in the end as the replies that are due.
use crate::same::same;
use crate::scripts::{LEVER, LONG_PUSH, PLOT, PUSH, RIVALS, Script, TOWN};
use std::alloc::{AllocError, Global};
use std::process::Abort;
use std::test::Fail;
use vx_board::Edited;
use vx_core::{Core, Event, Opening, Tick, run_core};
use vx_geom::{Bounds, Pos};
use vx_grammar::{Line, read_line};
use vx_play::number_of;
use vx_policy::{Edit, Policy};
use vx_region::{Name, RegionNo};
use vx_sector::{Cmd, Entry};
use vx_step::{Fate, Phase};

#[test]
fn members_of_a_parent_break(rt: HostRuntime) -> Result<(), Fail> {
    is_replied(&rt, rt.alloc(), &TOWN)
}

#[test]
fn a_plot_counts_from_the_next_window(rt: HostRuntime) -> Result<(), Fail> {
    is_replied(&rt, rt.alloc(), &PLOT)
}

#[test]
fn dust_carries_over_a_border(rt: HostRuntime) -> Result<(), Fail> {
    is_replied(&rt, rt.alloc(), &LEVER)
}

#[test]
fn twelve_cells_are_pushed(rt: HostRuntime) -> Result<(), Fail> {
    is_replied(&rt, rt.alloc(), &PUSH)
}

#[test]
fn thirteen_cells_are_not_pushed(rt: HostRuntime) -> Result<(), Fail> {
    is_replied(&rt, rt.alloc(), &LONG_PUSH)
}

#[test]
fn the_second_of_two_pistons_is_beaten(rt: HostRuntime) -> Result<(), Fail> {
    is_replied(&rt, rt.alloc(), &RIVALS)
}

// Played through the core machine, the script has the replies that are due.
fn is_replied(rt: &impl Abort, alloc: Global, script: &Script) -> Result<(), Fail> {
    let (lines, due) = script;
    let told = told_of(alloc, &read(alloc, lines)?)?;
    same(rt, &told.as_str(), due);
    Ok(())
}

fn told_of(alloc: Global, script: &[Line]) -> Result<String, Fail> {
    let bounds = bounds(script).ok_or("no world")?;
    let names = names(alloc, script)?;
    let events = events(alloc, script, &names, bounds.sectors())?;
    let opening = opening(alloc, bounds, names, script)?;
    Ok(play(alloc, &opening, &events)?)
}

fn read(alloc: Global, lines: &[&str]) -> Result<Vec<Line>, Fail> {
    let mut script = Vec::new(alloc);
    for line in lines {
        let Ok(line) = read_line(alloc, line.as_bytes()) else {
            return Err("a line that is none, or no memory".into());
        };
        script.push(line)?;
    }
    Ok(script)
}

fn bounds(script: &[Line]) -> Option<Bounds> {
    for line in script {
        if let Line::World(bounds) = line {
            return Some(*bounds);
        }
    }
    None
}

fn names(alloc: Global, script: &[Line]) -> Result<Vec<Name>, AllocError> {
    let mut names = Vec::new(alloc);
    for line in script {
        if let Line::Player(name) = line {
            names.push(*name)?;
        }
    }
    Ok(names)
}

// The world as it opens.
fn opening(
    alloc: Global,
    bounds: Bounds,
    names: Vec<Name>,
    script: &[Line],
) -> Result<Opening, Fail> {
    let Ok(mut opening) = Opening::new(alloc, bounds, names, Policy::new(alloc)?) else {
        return Err("no opening".into());
    };
    if !are_set(&mut opening, script) {
        return Err("a cell out of the world, or no memory".into());
    }
    Ok(opening)
}

fn are_set(opening: &mut Opening, script: &[Line]) -> bool {
    let mut all = true;
    for line in script {
        if let Line::Set(p, part) = line {
            all = opening.set(*p, *part).is_ok() && all;
        }
    }
    all
}

fn events(
    alloc: Global,
    script: &[Line],
    names: &[Name],
    sectors: u32,
) -> Result<Vec<Event>, Fail> {
    let mut events = Vec::new(alloc);
    for line in script {
        match line {
            Line::As(name, cmd) => events.push(act(names, name, *cmd)?)?,
            Line::Region(edit) => events.push(Event::Edit(edit.try_clone(alloc)?))?,
            Line::Tick => tick(&mut events, sectors)?,
            _ => {}
        }
    }
    Ok(events)
}

fn act(names: &[Name], name: &Name, cmd: Cmd) -> Result<Event, Fail> {
    let number = number_of(names, name).ok_or("no player")?;
    match u8::try_from(number) {
        Ok(seat) => Ok(Event::Act(seat, cmd)),
        Err(_) => Err("too many players".into()),
    }
}

// All sectors are taken, worked phase by phase, and put back.
fn tick(events: &mut Vec<Event>, sectors: u32) -> Result<(), AllocError> {
    for sector in 0..sectors {
        events.push(Event::Take(sector))?;
    }
    for phase in [Phase::Parts, Phase::Fates, Phase::Cells] {
        for sector in 0..sectors {
            events.push(Event::Work(phase, sector))?;
        }
    }
    events.push(Event::Fix)?;
    for sector in 0..sectors {
        events.push(Event::Put(sector))?;
    }
    Ok(())
}

// What is on record after these events.
fn play(alloc: Global, opening: &Opening, events: &[Event]) -> Result<String, AllocError> {
    let core = run_core(alloc, opening, events)?;
    told(alloc, &core)
}

// The edits that were accepted, then tick after tick what was answered before it and what became of
// pistons in it, and what was answered since.
fn told(alloc: Global, core: &Core) -> Result<String, AllocError> {
    let mut text = String::new(alloc);
    tell_edits(alloc, &mut text, &core.edits)?;
    for tick in &core.chronicle.ticks {
        tell_tick(alloc, &mut text, tick)?;
    }
    for sector in &core.sectors {
        tell_answers(alloc, &mut text, sector.entries())?;
    }
    Ok(text)
}

// Each definition has the next number.
fn tell_edits(alloc: Global, text: &mut String, edits: &[Edit]) -> Result<(), AllocError> {
    let mut regions = 0_u32;
    for (before, edit) in edits.iter().enumerate() {
        let count = (before as u64).saturating_add(1);
        let region = if let Edit::Define(..) = edit {
            regions = regions.saturating_add(1);
            Some(RegionNo(regions))
        } else {
            None
        };
        let edited = Edited { count, region };
        tell(text, &format!(in alloc; "{edited}")?)?;
    }
    Ok(())
}

fn tell_tick(alloc: Global, text: &mut String, tick: &Tick) -> Result<(), AllocError> {
    for sector in 0..tick.windows.count() {
        tell_answers(alloc, text, tick.windows.window(sector))?;
    }
    let number = tick.number;
    tell(text, &format!(in alloc; "tick {number}")?)?;
    for (p, fate) in &tick.fates {
        tell(text, &fate_text(alloc, *p, *fate)?)?;
    }
    Ok(())
}

fn tell_answers(alloc: Global, text: &mut String, entries: &[Entry]) -> Result<(), AllocError> {
    for entry in entries {
        tell(text, &answer_text(alloc, entry)?)?;
    }
    Ok(())
}

fn answer_text(alloc: Global, entry: &Entry) -> Result<String, AllocError> {
    match &entry.answer {
        Ok(reply) => format!(in alloc; "{reply}"),
        Err(refusal) => format!(in alloc; "{refusal}"),
    }
}

fn fate_text(alloc: Global, p: Pos, fate: Fate) -> Result<String, AllocError> {
    let piston = place(alloc, p)?;
    match fate {
        Fate::Moved => format!(in alloc; "moved {piston}"),
        Fate::Denied(cell, rule) => {
            let cell = place(alloc, cell)?;
            format!(in alloc; "denied {piston} at {cell} {rule}")
        }
        Fate::Beaten(winner) => {
            let winner = place(alloc, winner)?;
            format!(in alloc; "beaten {piston} by {winner}")
        }
    }
}

fn place(alloc: Global, p: Pos) -> Result<String, AllocError> {
    let (x, y, z) = (p.x, p.y, p.z);
    format!(in alloc; "{x} {y} {z}")
}

// One line more.
fn tell(text: &mut String, line: &str) -> Result<(), AllocError> {
    text.push_str(line)?;
    text.push_str("\n")
}
