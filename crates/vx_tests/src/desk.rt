//! The desk, alone and shared by threads.
ghost use Rattle.std.specs.Prelude.{◌≡◌, ◌<◌, ◌≤◌};
ghost use Rattle.vx_board.specs.declared.desk.TheConstants.{MAX_VIEWS};

use crate::same::same;
use crate::{beside, views};
use std::alloc::{AllocError, Global};
use std::marker::Brand;
use std::process::Abort;
use std::sync::Wait;
use std::test::Fail;
use std::thread;
use std::thread::Threads;
use vx_board::{Board, Desk, DeskError, DeskState, Edited, MAX_VIEWS, Opened, View};
use vx_geom::{Pos, ShapeSpec};
use vx_policy::{Edit, EditRefusal, Policy, Version};
use vx_region::RegionNo;

#[test]
fn edits_are_accepted_or_refused_and_versions_fixed(rt: HostRuntime) -> Result<(), Fail> {
    let mut desk = DeskState::<Brand>::new(rt.alloc(), Policy::new(rt.alloc())?);
    edit_and_fix(&rt, rt.alloc(), &mut desk)
}

fn edit_and_fix(rt: &impl Abort, alloc: Global, desk: &mut DeskState<Brand>) -> Result<(), Fail> {
    answers(rt, alloc, desk, "plot", told(1))?;
    let first = desk.fix(1)?;
    leave(rt, alloc, desk, &first)
}

// Later edits leave a version as it is.
fn leave(
    rt: &impl Abort,
    alloc: Global,
    desk: &mut DeskState<Brand>,
    first: &Version,
) -> Result<(), Fail> {
    edit_on(rt, alloc, desk)?;
    same(rt, &seen(first), &(1, 1, 1));
    Ok(())
}

fn edit_on(rt: &impl Abort, alloc: Global, desk: &mut DeskState<Brand>) -> Result<(), Fail> {
    answers(rt, alloc, desk, "farm", told(2))?;
    let known = Err(DeskError::Refused(EditRefusal::Known));
    answers(rt, alloc, desk, "PLOT", known)?;
    fixes_two(rt, desk)?;
    has_two(rt, desk);
    Ok(())
}

// A definition under that id is answered this.
fn answers(
    rt: &impl Abort,
    alloc: Global,
    desk: &mut DeskState<Brand>,
    id: &str,
    due: Result<Edited, DeskError>,
) -> Result<(), Fail> {
    let edit = define(alloc, id)?;
    same(rt, &desk.apply(alloc, edit), &due);
    Ok(())
}

fn fixes_two(rt: &impl Abort, desk: &DeskState<Brand>) -> Result<(), Fail> {
    let version = desk.fix(2)?;
    same(rt, &seen(&version), &(2, 2, 2));
    Ok(())
}

fn has_two(rt: &impl Abort, desk: &DeskState<Brand>) {
    let counts = (desk.count(), desk.accepted().len());
    same(rt, &(counts, desk.policy().regions().count()), &((2, 2), 2));
}

/// What is done with a desk that is shared.
#[derive(Clone, Copy)]
enum Day {
    /// Edits are accepted, and versions fixed.
    Shown,
    /// Two threads edit.
    ByTwo,
    /// Views explain what they have seen.
    Viewed,
    /// Views are shown later what was accepted.
    ShownLater,
    /// The desk may have so many views, and has them.
    Filled(usize),
    /// A view explains while an edit is under way, among many regions.
    Beside,
    /// What memory was refused to is called again.
    MadeAgain,
}

impl Day {
    // How many views the desk may have.
    fn views(self) -> usize
        ensures { (0 < result) × (result ≤ MAX_VIEWS) }
    {
        match self {
            Day::Filled(views) => views.clamp(1, MAX_VIEWS),
            _ => MAX_VIEWS,
        }
    }
}

// Opens a desk and spends the day at it.
fn spend<R: Threads + Wait + Abort + Sync>(rt: &R, alloc: Global, day: Day) -> Result<(), Fail> {
    let policy = match day {
        Day::Beside => beside::plots(alloc)?,
        _ => Policy::new(alloc)?,
    };
    spend_in::<Brand, R>(rt, alloc, policy, Opened::new(), day)
}

fn spend_in<J: Board + Send + Sync, R: Threads + Wait + Abort + Sync>(
    rt: &R,
    alloc: Global,
    policy: Policy,
    opened: Opened,
    day: Day,
) -> Result<(), Fail>
    requires first { policy ≡ J.first }
    requires edits { opened ≡ J.edits }
{
    let mut desk: Desk<J, &R> = Desk::new(rt, alloc, policy, opened, day.views())?;
    assert!(rt; desk.has_first());
    let mut view = desk.first_view();
    assert!(rt; !desk.has_first());
    spent(rt, alloc, &desk, &mut view, day)
}

fn spent<J: Board + Send + Sync, R: Threads + Wait + Abort + Sync>(
    rt: &R,
    alloc: Global,
    desk: &Desk<J, &R>,
    view: &mut View<J>,
    day: Day,
) -> Result<(), Fail> {
    match day {
        Day::Shown => show(rt, alloc, desk),
        Day::ByTwo => edited_by_two(rt, alloc, desk),
        Day::Viewed => views::viewed(rt, alloc, desk, view),
        Day::ShownLater => views::shown_later(rt, alloc, desk, view),
        Day::Filled(_) => views::filled(rt, alloc, desk, day.views()),
        Day::Beside => beside::explained_beside(rt, alloc, desk, view),
        Day::MadeAgain => views::made_again(rt, alloc, desk, view),
    }
}

#[test]
fn a_shared_desk_shows_its_edits(rt: HostRuntime) -> Result<(), Fail> {
    spend(&rt, rt.alloc(), Day::Shown)
}

#[test]
fn threads_edit_one_desk(rt: HostRuntime) -> Result<(), Fail> {
    spend(&rt, rt.alloc(), Day::ByTwo)
}

#[test]
fn views_explain_what_they_have_seen(rt: HostRuntime) -> Result<(), Fail> {
    spend(&rt, rt.alloc(), Day::Viewed)
}

#[test]
fn views_are_shown_later_what_was_accepted(rt: HostRuntime) -> Result<(), Fail> {
    spend(&rt, rt.alloc(), Day::ShownLater)
}

#[test]
fn a_desk_has_as_many_views_as_it_was_told(rt: HostRuntime) -> Result<(), Fail> {
    spend(&rt, rt.alloc(), Day::Filled(1))?;
    spend(&rt, rt.alloc(), Day::Filled(2))?;
    spend(&rt, rt.alloc(), Day::Filled(MAX_VIEWS))
}

#[test]
fn a_view_explains_while_an_edit_is_under_way(rt: HostRuntime) -> Result<(), Fail> {
    spend(&rt, rt.alloc(), Day::Beside)
}

#[test]
fn what_was_refused_is_done_again(rt: HostRuntime) -> Result<(), Fail> {
    spend(&rt, rt.alloc(), Day::MadeAgain)
}

fn show<J: Board, R: Abort + Wait>(rt: &R, alloc: Global, desk: &Desk<J, &R>) -> Result<(), Fail> {
    fixes(rt, desk, 1, (1, 0, 0))?;
    tells(rt, alloc, desk, "plot", 1)?;
    tells(rt, alloc, desk, "farm", 2)?;
    fixes(rt, desk, 2, (2, 2, 2))
}

fn fixes<J: Board, R: Abort + Wait>(
    rt: &R,
    desk: &Desk<J, &R>,
    tick: u64,
    due: (u64, u64, u32),
) -> Result<(), Fail> {
    let version = desk.fix(rt, tick)?;
    same(rt, &seen(&version), &due);
    Ok(())
}

fn tells<J: Board, R: Abort + Wait>(
    rt: &R,
    alloc: Global,
    desk: &Desk<J, &R>,
    id: &str,
    number: u32,
) -> Result<(), Fail> {
    let edit = define(alloc, id)?;
    let answer = match desk.edit(rt, alloc, edit) {
        Ok(listed) => Ok(listed.edited),
        Err(refused) => Err(refused.error),
    };
    same(rt, &answer, &told(number));
    Ok(())
}

fn edited_by_two<J: Board + Send + Sync, R: Abort + Threads + Wait + Sync>(
    rt: &R,
    alloc: Global,
    desk: &Desk<J, &R>,
) -> Result<(), Fail> {
    let mut counts = edit_by_two(rt, alloc, desk);
    counts.sort_unstable();
    same(rt, &counts, &[1, 2, 3, 4, 5, 6, 7, 8]);
    fixes(rt, desk, 2, (2, 8, 8))
}

// The counts that two threads are told, each of four definitions.
fn edit_by_two<J: Board + Send + Sync, R: Threads + Wait + Sync>(
    rt: &R,
    alloc: Global,
    desk: &Desk<J, &R>,
) -> [u64; 8] {
    let (these, those) = thread::join(
        rt,
        || define_four(rt, alloc, desk, ["a", "b", "c", "d"]),
        || define_four(rt, alloc, desk, ["e", "f", "g", "h"]),
    );
    let [a, b, c, d] = these;
    let [e, f, g, h] = those;
    [a, b, c, d, e, f, g, h]
}

// The count that each of these definitions is told, 0 where it is not accepted.
fn define_four<J: Board, R: Wait>(
    rt: &R,
    alloc: Global,
    desk: &Desk<J, &R>,
    ids: [&'static str; 4],
) -> [u64; 4] {
    ids.map(|id| match define(alloc, id) {
        Ok(edit) => match desk.edit(rt, alloc, edit) {
            Ok(listed) => listed.edited.count,
            Err(_) => 0,
        },
        Err(_) => 0,
    })
}

/// A column as a region of that id.
pub fn define(alloc: Global, id: &str) -> Result<Edit, AllocError> {
    let column = ShapeSpec::Cuboid(Pos::new(1, 0, 1), Pos::new(1, 63, 1));
    Ok(Edit::Define(String::from_str(alloc, id)?, column))
}

// The answer to a definition on a desk where each edit is one: its count and its number are the
// same.
fn told(number: u32) -> Result<Edited, DeskError> {
    Ok(Edited {
        count: u64::from(number),
        region: Some(RegionNo(number)),
    })
}

/// The number of a version, how many edits it has, and how many regions there are.
pub fn seen(version: &Version) -> (u64, u64, u32) {
    (
        version.tick,
        version.edits,
        version.policy.regions().count(),
    )
}
