//! What a view of the desk explains, beside what a command is answered.
use std::alloc::{AllocError, Global};
use std::process::Abort;
use std::sync::Wait;
use std::test::Fail;
use vx_block::Part;
use vx_board::{Desk, View};
use vx_decide::{Rule, Verdict};
use vx_flag::Action;
use vx_geom::{Pos, ShapeSpec};
use vx_keeper::Places;
use vx_policy::{Edit, Listing};
use vx_region::{Name, RegionNo, Subject};
use vx_sector::{Cmd, Reply};
use vx_step::NoGate;
use vx_world::{Pass, Seats, World};

const PLOT: Rule = Rule::Member { at: RegionNo(1) };

/// A view tells what the next window denies, while this one permits it still.
pub fn explained_and_done<A: Places, B: Seats, R: Wait + Abort>(
    rt: &R,
    alloc: Global,
    world: &World<A, B>,
    desk: &Desk<A, &R>,
    passes: &mut [Pass<A, B>],
) -> Result<(), Fail> {
    let (_, others) = passes.split_first_mut().ok_or("no pass")?;
    let bob = others.first_mut().ok_or("no pass")?;
    let mut view = desk.view().map_err(|_| "no view")?;
    learns(rt, alloc, desk, &mut view, plot(alloc)?)?;
    says(
        rt,
        &mut view,
        ("bob", Action::Placing, 5),
        (Verdict::Deny(PLOT), 1),
    )?;
    is_placed(rt, world, bob);
    learns(rt, alloc, desk, &mut view, owned(alloc)?)?;
    says(
        rt,
        &mut view,
        ("bob", Action::Placing, 5),
        (Verdict::Permit(PLOT), 2),
    )?;
    says(
        rt,
        &mut view,
        ("ann", Action::Turning, 6),
        (Verdict::Permit(Rule::Default), 2),
    )
}

fn learns<A: Places, R: Wait>(
    rt: &R,
    alloc: Global,
    desk: &Desk<A, &R>,
    view: &mut View<A>,
    edit: Edit,
) -> Result<(), Fail> {
    let Ok(listed) = desk.edit(rt, alloc, edit) else {
        return Err("no edit".into());
    };
    view.learn(&listed);
    Ok(())
}

// A player of that name is told this of that action at that column.
fn says<A: Places>(
    rt: &impl Abort,
    view: &mut View<A>,
    asked: (&str, Action, i32),
    due: (Verdict, u64),
) -> Result<(), Fail> {
    let (name, action, x) = asked;
    let player = Subject::Player(Name::read(name).map_err(|_| "no name")?);
    assert!(rt; view.explain(&player, action, Pos::new(x, 1, 5)) == Ok(due));
    Ok(())
}

fn is_placed<A: Places, B: Seats, R: Wait + Abort>(
    rt: &R,
    world: &World<A, B>,
    bob: &mut Pass<A, B>,
) {
    let cmd = Cmd::Place(Pos::new(5, 1, 5), Part::Stone);
    let answer = world.submit(rt, bob, cmd, &NoGate);
    assert!(rt; answer == Ok(Reply::Done(Rule::Default)));
}

fn plot(alloc: Global) -> Result<Edit, AllocError> {
    let column = ShapeSpec::Cuboid(Pos::new(5, 0, 5), Pos::new(5, 63, 5));
    Ok(Edit::Define(String::from_str(alloc, "plot")?, column))
}

fn owned(alloc: Global) -> Result<Edit, AllocError> {
    let id = String::from_str(alloc, "plot")?;
    Ok(Edit::Owner(id, Listing::Add, String::from_str(alloc, "bob")?))
}
