//! Words that no script reads or writes, or not all of them.
use crate::same::same;
use std::alloc::{AllocError, Global};
use std::fmt::Display;
use std::process::Abort;
use std::test::Fail;
use vx_block::{Cell, Delay, Kind, Lamp, Repeater, Side};
use vx_board::{DeskError, Edited};
use vx_decide::Rule;
use vx_flag::Flag;
use vx_geom::BadShape;
use vx_policy::{EditError, EditRefusal};
use vx_region::{BadId, BadName, Id, Name, RegionNo};

#[test]
fn refusals_that_no_script_meets_have_their_words(rt: HostRuntime) -> Result<(), Fail> {
    let alloc = rt.alloc();
    is_shown(&rt, alloc, &DeskError::HistoryFull, "refused 13 history")?;
    is_shown(&rt, alloc, &EditError::NoMemory, "refused 14 memory")?;
    is_shown(&rt, alloc, &DeskError::NoMemory, "refused 14 memory")?;
    let known = EditRefusal::Known;
    is_shown(&rt, alloc, &known, "refused 21 known")?;
    is_shown(&rt, alloc, &EditError::Refused(known), "refused 21 known")?;
    is_shown(&rt, alloc, &DeskError::Refused(known), "refused 21 known")?;
    Ok(())
}

fn is_shown<T: Display>(
    rt: &impl Abort,
    alloc: Global,
    shown: &T,
    due: &str,
) -> Result<(), AllocError> {
    let text = format!(in alloc; "{shown}")?;
    same(rt, &text.as_str(), &due);
    Ok(())
}

#[test]
fn edits_and_rules_have_their_words(rt: HostRuntime) -> Result<(), Fail> {
    let alloc = rt.alloc();
    let (at, from, flag) = (RegionNo(4_294_967_295), RegionNo(0), Flag::Pistons);
    is_rule(
        &rt,
        alloc,
        &Rule::Flag { at, from, flag },
        "flag pistons at 4294967295 from 0",
    )?;
    is_rule(
        &rt,
        alloc,
        &Rule::Build { at, from },
        "build at 4294967295 from 0",
    )?;
    is_rule(&rt, alloc, &Rule::Member { at }, "member at 4294967295")?;
    is_rule(&rt, alloc, &Rule::Default, "default")?;
    is_edited(
        &rt,
        alloc,
        1_099_511_627_776,
        Some(RegionNo(7)),
        "edit 1099511627776 region 7",
    )?;
    is_edited(&rt, alloc, 2, None, "edit 2")?;
    Ok(())
}

fn is_rule(rt: &impl Abort, alloc: Global, rule: &Rule, due: &str) -> Result<(), AllocError> {
    is_shown(rt, alloc, rule, due)
}

fn is_edited(
    rt: &impl Abort,
    alloc: Global,
    count: u64,
    region: Option<RegionNo>,
    due: &str,
) -> Result<(), AllocError> {
    is_shown(rt, alloc, &Edited { count, region }, due)
}

#[test]
fn ids_and_names_are_shown_in_lower_case(rt: HostRuntime) -> Result<(), Fail> {
    let alloc = rt.alloc();
    let long = Id::read("ABCDEFGHIJKLMNOPQRSTUVWXYZ-_1234")?;
    is_shown(&rt, alloc, &long, "abcdefghijklmnopqrstuvwxyz-_1234")?;
    is_shown(
        &rt,
        alloc,
        &Name::read("ABCDEFGHIJ_12345")?,
        "abcdefghij_12345",
    )?;
    is_shown(&rt, alloc, &BadId, "bad id")?;
    is_shown(&rt, alloc, &BadName, "bad name")?;
    is_shown(&rt, alloc, &BadShape, "bad shape")?;
    for text in ["", "abcdefghijklmnopqrstuvwxyz-_12345", "a b", "é"] {
        is_neither(&rt, text);
    }
    Ok(())
}

fn is_neither(rt: &impl Abort, text: &str) {
    same(rt, &Id::read(text), &Err(BadId));
    same(rt, &Name::read(text), &Err(BadName));
}

fn has_text(rt: &impl Abort, cell: &Cell, kind: Kind, text: &str) {
    same(rt, &cell.kind(), &kind);
    same(rt, &cell.text().as_str(), &text);
    same(rt, &Cell::read(text), &Some(*cell));
}

// A text is read back as its cell, also where no part begins as that.
#[test]
fn texts_of_cells_are_read(rt: HostRuntime) {
    has_text(&rt, &Cell::Lamp(Lamp::Cooling), Kind::Lamp, "lamp:on:1");
    let counting = Cell::Repeater(Repeater::new(Side::North, Delay::Four, true, 3));
    has_text(&rt, &counting, Kind::Repeater, "repeater:north:4:on:3");
}
