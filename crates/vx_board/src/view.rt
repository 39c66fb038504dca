ghost use Rattle.std.specs.Prelude.{◌≡◌, Err, length, IfOk, OnErr, MatchResult};
ghost use mathlib.Core.List.{IsPrefix};
ghost use Rattle.vx_board.specs.declared.view_error.ViewError.TheVariants.{NoView};
ghost use Rattle.vx_decide.specs.Verdict.{verdict};
ghost use Rattle.vx_policy.specs.Edits.{after, AreAccepted};
ghost use Rattle.vx_region.specs.Subjects.{actor_of};

use crate::board::Board;
use crate::front::Front;
use crate::listed::Listed;
use crate::posted::Posted;
use crate::view_error::ViewError;
use left_right::ReadHandle;
use std::marker::Model;
use vx_decide::Verdict;
use vx_flag::Action;
use vx_geom::Pos;
use vx_policy::Version;
use vx_region::Subject;

/// A reader of a desk, which takes no lock and never waits. Contracts see it as the edits that it
/// has seen or was told of.
#[derive(Drop)]
pub struct View<J: Board> {
    reader: ReadHandle<Posted<J>>,
    front: Front<J>,
}

impl<J: Board> Model for View<J> {
    ghost use Rattle.std.specs.Prelude.{List};
    ghost use Rattle.vx_policy.specs.Asked.{Asked};

    ghost Value = { List Asked };

    ghost view = { λ v. v.front };
}

impl<J: Board> View<J> {
    // The view that has seen these edits.
    pub(crate) fn new(reader: ReadHandle<Posted<J>>, front: Front<J>) -> View<J>
        ensures { result ≡ front }
    {
        View { reader, front }
    }

    /// How many edits it has seen or was told of.
    pub fn count(&self) -> u64
        ensures { result ≡ length self.now }
    {
        self.front.len()
    }

    /// What holds of every view: each of its edits was accepted in its turn, on the first policy.
    pub fn soundness(&self)
        ensures { AreAccepted J.first self.now }
    {
        self.front.soundness();
    }

    /// Whether the subject may do this at the place, and the rule that says so, by the policy after
    /// so many edits. These begin with all that the view has seen or was told of. It costs the
    /// regions near the place, and takes no memory.
    pub fn explain(
        &mut self,
        subject: &Subject,
        action: Action,
        p: Pos,
    ) -> Result<(Verdict, u64), ViewError>
        ensures later { IsPrefix self.old self.new }
        ensures answer { IfOk result (λ r.
            (r.0 ≡ verdict (after J.first self.new) (actor_of subject.now) action p)
            × (r.1 ≡ length self.new) × AreAccepted J.first self.new) }
        ensures refused { OnErr result ((self.new ≡ self.old) × (result ≡ Err NoView)) }
    {
        let View { reader, front } = self;
        let Some(posted) = reader.enter() else {
            return Err(ViewError::NoView);
        };
        if posted.front().len() < front.len() {
            return Err(ViewError::NoView);
        }
        let verdict = posted.decide(subject, action, p);
        *front = posted.front().longer(front);
        front.soundness();
        Ok((verdict, front.len()))
    }

    /// From now on it answers by no list without the edits of this one.
    pub fn learn(&mut self, listed: &Listed<J>)
        ensures later { IsPrefix self.old self.new }
        ensures learnt { IsPrefix listed.now.front self.new }
    {
        self.front = listed.front.longer(&self.front);
    }

    /// The version of that number, by the policy after the edits that are then seen. These begin
    /// with all that the view has seen or was told of.
    pub fn fix(&mut self, tick: u64) -> Result<Version, ViewError>
        ensures later { IsPrefix self.old self.new }
        ensures version { IfOk result (λ version. (version ≡ record {
          tick = tick;
          edits = length self.new;
          policy = after J.first self.new;
        }) × AreAccepted J.first self.new) }
        ensures refused { OnErr result (self.new ≡ self.old) }
    {
        let View { reader, front } = self;
        let Some(posted) = reader.enter() else {
            return Err(ViewError::NoView);
        };
        if posted.front().len() < front.len() {
            return Err(ViewError::NoView);
        }
        let Ok(policy) = posted.policy().try_clone() else {
            return Err(ViewError::NoMemory);
        };
        *front = posted.front().longer(front);
        front.soundness();
        Ok(Version {
            tick,
            edits: front.len(),
            policy,
        })
    }
}
