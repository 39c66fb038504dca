ghost use Rattle.std.specs.Prelude.{◌≡◌, IfOk};
ghost use Rattle.vx_decide.specs.Verdict.{verdict};
ghost use Rattle.vx_policy.specs.Edits.{after};
ghost use Rattle.vx_region.specs.Subjects.{actor_of};

use crate::board::Board;
use crate::front::Front;
use crate::told::Told;
use left_right::Absorb;
use std::alloc::AllocError;
use std::marker::Model;
use vx_decide::{Decide, Verdict};
use vx_flag::Action;
use vx_geom::Pos;
use vx_policy::Policy;
use vx_region::Subject;

/// What readers of a desk take: a policy, and the front of the edits that led to it. Contracts see
/// it as these edits.
#[derive(Drop)]
pub struct Posted<J: Board> {
    policy: Policy,
    front: Front<J>,
}

impl<J: Board> Model for Posted<J> {
    ghost use Rattle.std.specs.Prelude.{◌≡◌, List};
    ghost use Rattle.vx_policy.specs.Asked.{Asked};
    ghost use Rattle.vx_policy.specs.Edits.{after};

    ghost Value = { List Asked };

    ghost view = { λ p. p.front };

    ghost invariant = { λ p. p.policy ≡ after J.first p.front };
}

impl<J: Board> Posted<J> {
    /// The policy after the edits of the front.
    pub fn new(policy: Policy, front: Front<J>) -> Posted<J>
        requires { policy ≡ after J.first front }
        ensures { result ≡ front }
    {
        Posted { policy, front }
    }

    /// The policy after the edits.
    pub fn policy(&self) -> &Policy
        ensures { result.now ≡ after J.first self.now }
    {
        &self.policy
    }

    /// The front of the edits.
    pub fn front(&self) -> &Front<J>
        ensures { result.now ≡ self.now }
    {
        &self.front
    }

    /// Whether the subject may do this at the place, and the rule that says so, by the policy. It
    /// costs the regions near the place, and takes no memory.
    pub fn decide(&self, subject: &Subject, action: Action, p: Pos) -> Verdict
        ensures { result ≡ verdict (after J.first self.now) (actor_of subject.now) action p }
    {
        self.policy.decide(subject, action, p)
    }

    /// A copy, which shares the policy.
    pub fn try_clone(&self) -> Result<Posted<J>, AllocError>
        ensures { IfOk result (λ copy. copy ≡ self.now) }
    {
        Ok(Posted {
            policy: self.policy.try_clone()?,
            front: self.front.again(),
        })
    }
}

/// What is posted takes the place of what was.
impl<J: Board> Absorb<Posted<J>> for Posted<J> {
    type State = [Told; 0];

    ghost state = { λ p. p };

    ghost applied = { λ edits p. p };

    fn absorb_first(
        &mut self,
        operation: &Posted<J>,
        _other: &Posted<J>,
    ) -> Result<(), AllocError> {
        *self = operation.try_clone()?;
        Ok(())
    }

    fn absorb_second(&mut self, operation: Posted<J>, _other: &Posted<J>) -> Result<(), Posted<J>> {
        *self = operation;
        Ok(())
    }
}
