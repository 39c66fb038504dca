//! Views of a desk: what they explain, how many there are, and what memory was refused to.
use crate::desk::{define, seen};
use crate::same::same;
use std::alloc::{AllocError, Global};
use std::process::Abort;
use std::sync::Wait;
use std::test::Fail;
use vx_board::{Board, Desk, DeskError, Listed, View, ViewError};
use vx_decide::{Rule, Verdict};
use vx_flag::Action;
use vx_geom::{Pos, ShapeSpec};
use vx_policy::{Edit, Listing, Version};
use vx_region::{Name, RegionNo, Subject};

/// A view that has learnt of an edit explains by it, and so does another.
pub fn viewed<J: Board, R: Abort + Wait>(
    rt: &R,
    alloc: Global,
    desk: &Desk<J, &R>,
    view: &mut View<J>,
) -> Result<(), Fail> {
    learns(rt, alloc, desk, view, plot(alloc)?)?;
    says(rt, view, ("bob", 5), (Verdict::Deny(member()), 1))?;
    learns(rt, alloc, desk, view, owned(alloc)?)?;
    says(rt, view, ("bob", 5), (Verdict::Permit(member()), 2))?;
    uses(rt, view)?;
    fixes(rt, view)?;
    sees_all(rt, &mut desk.view()?)
}

/// An edit that is accepted alone is shown to views later: one that was told of it says nothing
/// meanwhile, and one that was not answers without it.
pub fn shown_later<J: Board, R: Abort + Wait>(
    rt: &R,
    alloc: Global,
    desk: &Desk<J, &R>,
    view: &mut View<J>,
) -> Result<(), Fail> {
    let listed = accepted_alone(rt, alloc, desk, plot(alloc)?)?;
    same(rt, &listed.edited.count, &1);
    view.learn(&listed);
    same(rt, &view.fix(2).err(), &Some(ViewError::NoView));
    let mut other = desk.view()?;
    says(
        rt,
        &mut other,
        ("bob", 5),
        (Verdict::Permit(Rule::Default), 0),
    )?;
    desk.show(rt);
    says(rt, view, ("bob", 5), (Verdict::Deny(member()), 1))?;
    says(rt, &mut other, ("bob", 5), (Verdict::Deny(member()), 1))
}

fn accepted_alone<J: Board, R: Wait>(
    rt: &R,
    alloc: Global,
    desk: &Desk<J, &R>,
    edit: Edit,
) -> Result<Listed<J>, Fail> {
    match desk.accept(rt, alloc, edit) {
        Ok(listed) => Ok(listed),
        Err(_) => Err("no edit")?,
    }
}

// A view that has learnt nothing.
fn sees_all<J: Board>(rt: &impl Abort, view: &mut View<J>) -> Result<(), Fail> {
    same(rt, &view.count(), &0);
    says(rt, view, ("bob", 5), (Verdict::Permit(member()), 2))?;
    same(rt, &view.count(), &2);
    Ok(())
}

fn learns<J: Board, R: Abort + Wait>(
    rt: &R,
    alloc: Global,
    desk: &Desk<J, &R>,
    view: &mut View<J>,
    edit: Edit,
) -> Result<(), Fail> {
    let listed = accepted(rt, alloc, desk, edit)?;
    view.learn(&listed);
    Ok(())
}

fn accepted<J: Board, R: Wait>(
    rt: &R,
    alloc: Global,
    desk: &Desk<J, &R>,
    edit: Edit,
) -> Result<Listed<J>, Fail> {
    match desk.edit(rt, alloc, edit) {
        Ok(listed) => Ok(listed),
        Err(_) => Err("no edit")?,
    }
}

// A player of that name at that column is told this of placing a block.
fn says<J: Board>(
    rt: &impl Abort,
    view: &mut View<J>,
    asked: (&str, i32),
    due: (Verdict, u64),
) -> Result<(), Fail> {
    let (name, x) = asked;
    let player = Subject::Player(Name::read(name)?);
    same(
        rt,
        &view.explain(&player, Action::Placing, Pos::new(x, 1, 5)),
        &Ok(due),
    );
    Ok(())
}

// Ann may turn a lever where there is no plot.
fn uses<J: Board>(rt: &impl Abort, view: &mut View<J>) -> Result<(), Fail> {
    let ann = Subject::Player(Name::read("ann")?);
    let told = view.explain(&ann, Action::Turning, Pos::new(6, 1, 5));
    same(rt, &told, &Ok((Verdict::Permit(Rule::Default), 2)));
    Ok(())
}

fn member() -> Rule {
    Rule::Member { at: RegionNo(1) }
}

fn fixes<J: Board>(rt: &impl Abort, view: &mut View<J>) -> Result<(), Fail> {
    let version = view.fix(7)?;
    same(rt, &seen(&version), &(7, 2, 1));
    Ok(())
}

fn plot(alloc: Global) -> Result<Edit, AllocError> {
    let column = ShapeSpec::Cuboid(Pos::new(5, 0, 5), Pos::new(5, 63, 5));
    Ok(Edit::Define(String::from_str(alloc, "plot")?, column))
}

fn owned(alloc: Global) -> Result<Edit, AllocError> {
    let id = String::from_str(alloc, "plot")?;
    Ok(Edit::Owner(id, Listing::Add, String::from_str(alloc, "bob")?))
}

/// A desk that may have so many views has them beside the first one and no more, and a place is free
/// again when one is let go.
pub fn filled<J: Board, R: Abort + Wait>(
    rt: &R,
    alloc: Global,
    desk: &Desk<J, &R>,
    views: usize,
) -> Result<(), Fail> {
    let mut others = Vec::new(alloc);
    for _ in 1..views {
        others.push(desk.view()?)?;
    }
    same(rt, &desk.view().err(), &Some(ViewError::NoView));
    if others.pop().is_some() {
        same(rt, &desk.view().err(), &None);
    }
    Ok(())
}

/// An edit that memory was refused to is accepted the second time, and what was refused left
/// nothing. What a view explains needs no memory.
pub fn made_again<J: Board, R: Abort + Wait>(
    rt: &R,
    alloc: Global,
    desk: &Desk<J, &R>,
    view: &mut View<J>,
) -> Result<(), Fail> {
    for (number, id) in [(1, "plot"), (2, "farm"), (3, "mill")] {
        let listed = edited_again(rt, alloc, desk, id)?;
        same(rt, &listed.edited.count, &number);
        view.learn(&listed);
        says(
            rt,
            view,
            ("bob", 5),
            (Verdict::Permit(Rule::Default), number),
        )?;
        says(
            rt,
            view,
            ("bob", 40),
            (Verdict::Permit(Rule::Default), number),
        )?;
        same(rt, &view.fix(number)?.edits, &number);
    }
    says(
        rt,
        &mut desk.view()?,
        ("bob", 1),
        (Verdict::Permit(Rule::Default), 3),
    )
}

fn edited_again<J: Board, R: Abort + Wait>(
    rt: &R,
    alloc: Global,
    desk: &Desk<J, &R>,
    id: &str,
) -> Result<Listed<J>, Fail> {
    let first = define(alloc, id)?;
    let second = define(alloc, id)?;
    let refused = match desk.edit(rt, alloc, first) {
        Ok(listed) => return Ok(listed),
        Err(refused) => refused,
    };
    same(rt, &refused.error, &DeskError::NoMemory);
    accepted(rt, alloc, desk, second)
}
