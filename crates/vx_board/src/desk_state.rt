use crate::acceptance::{make_ready, settle};
use crate::desk_error::DeskError;
use crate::edited::Edited;
use crate::naming::Naming;
use std::alloc::{AllocError, Global};
use std::marker::{Model, PhantomData};
use vx_policy::{Edit, Policy, Version};

/// What a desk holds: the edits that it accepted, and the policy after them. Contracts see the
/// list; the first policy stands in the type.
#[derive(Drop)]
pub struct DeskState<J: Naming> {
    accepted: Vec<Edit>,
    policy: Policy,
    of: PhantomData<J>,
}

impl<J: Naming> Model for DeskState<J> {
    ghost use Rattle.std.specs.Prelude.{◌≡◌, List, map};
    ghost use Rattle.vx_policy.specs.Asked.{Asked, asked};
    ghost use Rattle.vx_policy.specs.Edits.{after, AreAccepted};

    ghost Value = { List Asked };

    ghost view = { λ a. map asked a.accepted.items };

    ghost invariant = { λ a. AreAccepted J.first (map asked a.accepted.items)
        × (a.policy ≡ after J.first (map asked a.accepted.items)) };
}

impl<J: Naming> DeskState<J> {
    ghost use Rattle.std.specs.Prelude.{◌≡◌, ◌++◌, ◌∷◌, [], length, map, IfOk, OnOk, OnErr};
    ghost use Rattle.vx_board.specs.Accepted.{IsAnswer};
    ghost use Rattle.vx_policy.specs.Asked.{asked};
    ghost use Rattle.vx_policy.specs.Edits.{after, AreAccepted};

    /// A desk on its first policy, with no edit accepted. It takes no memory.
    pub fn new(alloc: Global, policy: Policy) -> DeskState<J>
        requires { policy ≡ J.first }
        ensures { result ≡ [] }
    {
        DeskState {
            accepted: Vec::new(alloc),
            policy,
            of: PhantomData,
        }
    }

    /// Accepts an edit and applies it, or refuses it: where as many were accepted as may be, else
    /// by the first cause that stands against it as things are now. A refusal, for want of memory
    /// too, leaves all as it was.
    pub fn apply(&mut self, alloc: Global, edit: Edit) -> Result<Edited, DeskError>
        ensures answer { IsAnswer (after J.first self.old) (length self.old) (asked edit) result }
        ensures ok { OnOk result (self.new ≡ self.old ++ asked edit ∷ []) }
        ensures err { OnErr result (self.new ≡ self.old) }
    {
        let ready = make_ready(alloc, &mut self.policy, &mut self.accepted, edit)?;
        Ok(settle(&mut self.accepted, ready))
    }

    /// The version of that number: the policy after the edits that were accepted so far. It shares
    /// the regions.
    pub fn fix(&self, tick: u64) -> Result<Version, AllocError>
        ensures { IfOk result (λ version. version ≡ record {
          tick = tick;
          edits = length self.now;
          policy = after J.first self.now;
        }) }
    {
        Ok(Version {
            tick,
            edits: self.accepted.len() as u64,
            policy: self.policy.try_clone()?,
        })
    }

    /// How many edits were accepted.
    pub fn count(&self) -> u64
        ensures { result ≡ length self.now }
    {
        self.accepted.len() as u64
    }

    /// The edits that were accepted, in their order.
    pub fn accepted(&self) -> &[Edit]
        ensures { map asked result.now ≡ self.now }
    {
        &self.accepted
    }

    /// The policy after the edits that were accepted.
    pub fn policy(&self) -> &Policy
        ensures { result.now ≡ after J.first self.now }
    {
        &self.policy
    }

    /// What holds of every desk: each of its edits was accepted in its turn, on its first policy.
    pub fn soundness(&self)
        ensures { AreAccepted J.first self.now }
    {
        let _accepted = &self.accepted;
    }
}
