//! Policies as values: their copies, and what is equal.
use crate::same::same;
use std::alloc::{AllocError, Global};
use std::process::Abort;
use std::test::Fail;
use vx_file::read_policy;
use vx_flag::{Flag, Group, Setting, State};
use vx_geom::{Pos, ShapeSpec};
use vx_policy::{Edit, EditError, EditRefusal, Listing, Policy, Version};
use vx_region::{RegionNo, RegionSet};

// What an edit is answered.
type Answer = Result<Option<RegionNo>, EditError>;

const PLOT: &[u8] = b"version = 1\n[[region]]\nid = 'plot'\ncuboid = [1, 0, 1, 1, 63, 1]\n";

const TOWN: &[u8] =
    b"version = 1\n[[region]]\nid = 'plot'\nparent = 'town'\nmembers = ['bob']\ncuboid = [1, 0, 1, 1, 63, 1]\n[[region]]\nid = 'Town'\npriority = -3\nowners = ['ann']\ncuboid = [0, 0, 0, 9, 63, 9]\n[global]\nuse = 'deny members'\n";

#[test]
fn copies_of_a_policy_do_not_see_each_other(rt: HostRuntime) -> Result<(), Fail> {
    let alloc = rt.alloc();
    let mut policy = read_policy(alloc, PLOT)?;
    let copy = policy.try_clone()?;
    rise_and_fall(&rt, alloc, &mut policy, &copy)
}

fn rise_and_fall(
    rt: &impl Abort,
    alloc: Global,
    policy: &mut Policy,
    copy: &Policy,
) -> Result<(), Fail> {
    compares(rt, policy, copy, true, 0);
    answers(rt, alloc, policy, rise(alloc, "PLOT", 1)?, Ok(None), 1);
    compares(rt, policy, copy, false, 1);
    let refused = Err(EditError::Refused(EditRefusal::Cycle));
    answers(rt, alloc, policy, cycle(alloc)?, refused, 2);
    answers(rt, alloc, policy, rise(alloc, "plot", 0)?, Ok(None), 3);
    compares(rt, policy, copy, true, 3);
    Ok(())
}

// Each step of a test has its number, which is told where it fails.
fn compares(rt: &impl Abort, policy: &Policy, other: &Policy, due: bool, step: u8) {
    same(rt, &(*policy == *other, *policy != *other), &(due, !due));
}

fn answers(rt: &impl Abort, alloc: Global, policy: &mut Policy, edit: Edit, due: Answer, step: u8) {
    same(rt, &policy.apply(alloc, edit), &due);
}

fn rise(alloc: Global, id: &str, priority: i32) -> Result<Edit, AllocError> {
    Ok(Edit::Priority(String::from_str(alloc, id)?, priority))
}

fn cycle(alloc: Global) -> Result<Edit, AllocError> {
    let plot = String::from_str(alloc, "plot")?;
    Ok(Edit::Parent(plot, Some(String::from_str(alloc, "plot")?)))
}

#[test]
fn a_copy_of_a_set_of_regions_is_equal(rt: HostRuntime) -> Result<(), Fail> {
    let town = read_policy(rt.alloc(), TOWN)?;
    let plot = read_policy(rt.alloc(), PLOT)?;
    Ok(copied(&rt, town.regions(), plot.regions())?)
}

fn copied(rt: &impl Abort, regions: &RegionSet, others: &RegionSet) -> Result<(), AllocError> {
    let copy = regions.try_clone()?;
    assert!(rt; copy == *regions);
    assert!(rt; copy != *others);
    Ok(())
}

// Each edit is made of one policy, and a copy of the edit of another.
#[test]
fn a_copy_of_an_edit_does_the_same(rt: HostRuntime) -> Result<(), Fail> {
    let alloc = rt.alloc();
    let mut policy = read_policy(alloc, PLOT)?;
    let mut twin = read_policy(alloc, PLOT)?;
    for kind in 0..12 {
        twins(&rt, alloc, &mut policy, &mut twin, kind)?;
    }
    Ok(())
}

fn twins(
    rt: &impl Abort,
    alloc: Global,
    policy: &mut Policy,
    twin: &mut Policy,
    kind: u8,
) -> Result<(), Fail> {
    let (edit, answer) = one(alloc, kind)?;
    let copy = edit.try_clone(alloc)?;
    answers(rt, alloc, policy, edit, Ok(answer), kind);
    compares(rt, policy, twin, false, kind);
    answers(rt, alloc, twin, copy, Ok(answer), kind);
    compares(rt, policy, twin, true, kind);
    Ok(())
}

// Each edit is made of the policy that the ones before it left.
#[test]
fn an_edit_that_memory_was_refused_to_is_made_again(rt: HostRuntime) -> Result<(), Fail> {
    let alloc = rt.alloc();
    let mut policy = read_policy(alloc, PLOT)?;
    for kind in 0..12 {
        made_again(&rt, alloc, &mut policy, kind)?;
    }
    Ok(())
}

fn made_again(rt: &impl Abort, alloc: Global, policy: &mut Policy, kind: u8) -> Result<(), Fail> {
    let (edit, due) = one(alloc, kind)?;
    let copy = edit.try_clone(alloc)?;
    let before = policy.try_clone()?;
    let answer = policy.apply(alloc, edit);
    if answer == Err(EditError::NoMemory) {
        compares(rt, policy, &before, true, kind);
        answers(rt, alloc, policy, copy, Ok(due), kind);
    } else {
        same(rt, &answer, &Ok(due));
    }
    Ok(())
}

// An edit of each kind that changes something, and the number that it gives.
fn one(alloc: Global, kind: u8) -> Result<(Edit, Option<RegionNo>), AllocError> {
    match kind {
        0 => Ok((town(alloc)?, Some(RegionNo(2)))),
        1 => Ok((reshaped(alloc)?, None)),
        3 | 7 | 8 | 9 | 10 => Ok((naming(alloc, kind)?, None)),
        _ => Ok((of_plot(kind, String::from_str(alloc, "plot")?), None)),
    }
}

fn town(alloc: Global) -> Result<Edit, AllocError> {
    let spot = Pos::new(-1, 0, 0);
    let town = String::from_str(alloc, "town")?;
    Ok(Edit::Define(town, ShapeSpec::Cuboid(spot, spot)))
}

fn reshaped(alloc: Global) -> Result<Edit, AllocError> {
    let points = Vec::from_slice(alloc, &[(0, 0), (9, 0), (0, 9)])?;
    let plot = String::from_str(alloc, "plot")?;
    Ok(Edit::Reshape(plot, ShapeSpec::Poly(points, 0, 0)))
}

// Those that name a town, a player or a domain.
fn naming(alloc: Global, kind: u8) -> Result<Edit, AllocError> {
    let plot = String::from_str(alloc, "plot")?;
    let named = String::from_str(alloc, if kind == 3 { "town" } else { "ann" })?;
    Ok(match kind {
        3 => Edit::Parent(plot, Some(named)),
        7 => Edit::Owner(plot, Listing::Add, named),
        8 => Edit::Member(plot, Listing::Add, named),
        9 => Edit::Domain(plot, Listing::Add, named),
        _ => Edit::Owner(plot, Listing::Drop, named),
    })
}

fn of_plot(kind: u8, plot: String) -> Edit {
    let (state, group) = (State::Deny, Group::All);
    match kind {
        2 => Edit::Priority(plot, -3),
        4 => Edit::Parent(plot, None),
        5 => Edit::SetFlag(plot, Flag::Usage, Setting { state, group }),
        6 => Edit::ClearFlag(plot, Flag::Usage),
        _ => Edit::Remove(plot),
    }
}

#[test]
fn versions_differ_in_each_part(rt: HostRuntime) -> Result<(), Fail> {
    let first = version(rt.alloc(), 1, 0, PLOT)?;
    is_its_copy(&rt, &first)?;
    each_differs(&rt, rt.alloc(), &first)
}

fn is_its_copy(rt: &impl Abort, version: &Version) -> Result<(), AllocError> {
    let copy = version.try_clone()?;
    assert!(rt; *version == copy);
    Ok(())
}

fn each_differs(rt: &impl Abort, alloc: Global, first: &Version) -> Result<(), Fail> {
    for (tick, edits, file) in [(2, 0, PLOT), (1, 1, PLOT), (1, 0, TOWN)] {
        let other = version(alloc, tick, edits, file)?;
        assert!(rt; *first != other);
    }
    Ok(())
}

fn version(alloc: Global, tick: u64, edits: u64, file: &[u8]) -> Result<Version, Fail> {
    let policy = read_policy(alloc, file)?;
    Ok(Version {
        tick,
        edits,
        policy,
    })
}
