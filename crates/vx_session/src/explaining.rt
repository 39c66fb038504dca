//! Questions of what a player may do.
ghost use mathlib.Core.List.{IsPrefix};
ghost use Rattle.std.specs.Prelude.{◌≡◌, length, IfOk};
ghost use Rattle.vx_decide.specs.Verdict.{verdict};
ghost use Rattle.vx_policy.specs.Edits.{after};
ghost use Rattle.vx_region.specs.Subjects.{actor_of};
ghost use Rattle.vx_session.specs.Sessions.{edits_to};

use crate::session::Session;
use crate::session_error::SessionError;
use std::sync::Wait;
use vx_board::{Desk, Listed, View};
use vx_decide::Verdict;
use vx_flag::Action;
use vx_geom::Pos;
use vx_keeper::Places;
use vx_region::Subject;
use vx_world::Seats;

impl<A: Places, B: Seats> Session<A, B> {
    /// Whether the subject may do this at the place, and the rule that says so, by all edits that
    /// were accepted so far, and how many these are. It takes the lock of the desk for the first
    /// question behind an edit, and else none.
    pub fn explain<D: Wait + Drop>(
        &mut self,
        rt: &impl Wait,
        desk: &Desk<A, D>,
        subject: &Subject,
        action: Action,
        p: Pos,
    ) -> Result<(Verdict, u64), SessionError>
        ensures answer { IfOk result (λ r.
            (r.0 ≡ verdict (after A.first self.old.edits) (actor_of subject.now) action p)
            × (r.1 ≡ length self.old.edits)) }
        ensures kept { self.new ≡ self.old }
    {
        self.show(rt, desk);
        explained_at(desk, &mut self.view, &self.last, subject, action, p)
    }
}

// What a view of the desk says by all edits that were accepted so far; the first question makes it.
fn explained_at<A: Places, D: Wait + Drop>(
    desk: &Desk<A, D>,
    view: &mut Option<View<A>>,
    last: &Option<Listed<A>>,
    subject: &Subject,
    action: Action,
    p: Pos,
) -> Result<(Verdict, u64), SessionError>
    ensures { IfOk result (λ r.
        (r.0 ≡ verdict (after A.first (edits_to last.now)) (actor_of subject.now) action p)
        × (r.1 ≡ length (edits_to last.now))) }
{
    if view.is_none() {
        *view = Some(desk.view()?);
    }
    match view {
        Some(view) => explained(view, last, subject, action, p),
        None => Err(SessionError::NoView),
    }
}

// What the view says by all edits that were accepted so far.
fn explained<A: Places>(
    view: &mut View<A>,
    last: &Option<Listed<A>>,
    subject: &Subject,
    action: Action,
    p: Pos,
) -> Result<(Verdict, u64), SessionError>
    ensures { IfOk result (λ r.
        (r.0 ≡ verdict (after A.first (edits_to last.now)) (actor_of subject.now) action p)
        × (r.1 ≡ length (edits_to last.now))) }
{
    learn_all(view, last);
    let (verdict, count) = view.explain(subject, action, p)?;
    if count != count_of(last) {
        return Err(SessionError::elsewhere());
    }
    Ok((verdict, count))
}

// Tells the view of all edits that were accepted so far.
fn learn_all<A: Places>(view: &mut View<A>, last: &Option<Listed<A>>)
    ensures { IsPrefix (edits_to last.now) view.new }
{
    if let Some(listed) = last {
        view.learn(listed);
    }
}

/// How many edits were accepted so far.
pub(crate) fn count_of<A: Places>(last: &Option<Listed<A>>) -> u64
    ensures { result ≡ length (edits_to last.now) }
{
    match last {
        Some(listed) => listed.front.len(),
        None => 0,
    }
}
