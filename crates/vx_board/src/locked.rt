ghost use Rattle.std.specs.Prelude.{◌≡◌, ◌++◌, ◌∷◌, ◌<◌, ◌^◌, [], true, None, map, length, IfOk, IfErr, Ok};
ghost use Rattle.left_right.specs.Handles.{published, pending};
ghost use Rattle.vx_board.specs.Accepted.{IsAnswer, IsRefused};
ghost use Rattle.vx_policy.specs.Asked.{asked};
ghost use Rattle.vx_policy.specs.Edits.{after, AreAccepted};
ghost use Rattle.vx_policy.specs.Refusals.{refusal};

use crate::acceptance::{make_ready, settle};
use crate::board::Board;
use crate::front::Front;
use crate::head::Head;
use crate::listed::Listed;
use crate::posted::Posted;
use crate::refused::Refused;
use left_right::{Absorb, WriteHandle};
use std::alloc::{AllocError, Global};
use std::sync::Wait;
use vx_policy::{Edit, Policy, Version};

/// What lies under the lock of a desk: the edits that it accepted, the policy after them, and what
/// shows it to readers. The list is the front.
#[derive(Drop)]
pub struct Locked<J: Board, R: Wait + Drop>
where
    Posted<J>: Absorb<Posted<J>>,
{
    head: Head<J>,
    pub front: Front<J>,
    accepted: Vec<Edit>,
    policy: Policy,
    // Whether readers are shown the policy after all accepted edits. Else it is an earlier one.
    pub is_shown: bool,
    writer: WriteHandle<Posted<J>, Posted<J>, R>,
    ghost listed: { map asked accepted.items ≡ front },
    ghost policy_is: { policy ≡ after J.first front },
    ghost shown: { is_shown ≡ true → published writer ≡ front },
    ghost none_left: { pending writer ≡ [] },
}

impl<J: Board, R: Wait + Drop> Locked<J, R> {
    /// What shows this policy, with no edit accepted.
    pub fn new(
        alloc: Global,
        head: Head<J>,
        front: Front<J>,
        policy: Policy,
        writer: WriteHandle<Posted<J>, Posted<J>, R>,
    ) -> Locked<J, R>
        requires policy { policy ≡ J.first }
        requires front { front ≡ [] }
        requires shown { published writer ≡ [] }
        requires none_left { pending writer ≡ [] }
        ensures { result.front ≡ [] }
    {
        Locked {
            head,
            front,
            accepted: Vec::new(alloc),
            policy,
            is_shown: true,
            writer,
        }
    }

    /// Accepts an edit or refuses it, as `DeskState::apply` does, and shows readers what stands
    /// accepted then.
    pub fn edit(
        &mut self,
        rt: &impl Wait,
        alloc: Global,
        edit: Edit,
    ) -> Result<Listed<J>, Refused<J>>
        ensures accepted { AreAccepted J.first self.old.front }
        ensures ok { IfOk result (λ listed. (listed.front ≡ self.old.front ++ asked edit ∷ [])
            × (self.new.front ≡ listed.front)
            × IsAnswer (after J.first self.old.front) (length self.old.front) (asked edit)
            (Ok listed.edited)) }
        ensures refused { IfErr result (λ refused. (refused.front ≡ self.old.front)
            × (self.new.front ≡ self.old.front)
            × IsRefused (after J.first self.old.front) (length self.old.front) (asked edit)
            refused.error) }
        ensures shown { self.new.is_shown ≡ true }
    {
        let answer = self.accept(rt, alloc, edit);
        self.show(rt);
        answer
    }

    /// Accepts an edit or refuses it, as `DeskState::apply` does. Readers are shown what they were
    /// shown before.
    pub fn accept(
        &mut self,
        rt: &impl Wait,
        alloc: Global,
        edit: Edit,
    ) -> Result<Listed<J>, Refused<J>>
        ensures accepted { AreAccepted J.first self.old.front }
        ensures ok { IfOk result (λ listed. (listed.front ≡ self.old.front ++ asked edit ∷ [])
            × (self.new.front ≡ listed.front)
            × IsAnswer (after J.first self.old.front) (length self.old.front) (asked edit)
            (Ok listed.edited)) }
        ensures refused { IfErr result (λ refused. (refused.front ≡ self.old.front)
            × (self.new.front ≡ self.old.front)
            × IsRefused (after J.first self.old.front) (length self.old.front) (asked edit)
            refused.error) }
    {
        self.front.soundness();
        let ready = match make_ready(alloc, &mut self.policy, &mut self.accepted, edit) {
            Ok(ready) => ready,
            Err(error) => {
                return Err(Refused {
                    error,
                    front: self.front.again(),
                });
            }
        };
        let front = grown(rt, &self.front, &self.head, &ready.edit);
        let edited = settle(&mut self.accepted, ready);
        self.is_shown = false;
        self.front = front.again();
        Ok(Listed { edited, front })
    }

    /// Shows readers the policy after all accepted edits, where they are not shown it yet.
    pub fn show(&mut self, rt: &impl Wait)
        ensures front { self.new.front ≡ self.old.front }
        ensures shown { self.new.is_shown ≡ true }
    {
        if self.is_shown {
            return;
        }
        let Ok(policy) = self.policy.try_clone() else {
            // Only the count of a policy's owners could run out.
            stop(rt);
            unreachable!()
        };
        show(
            rt,
            &mut self.writer,
            Posted::new(policy, self.front.again()),
        );
        self.is_shown = true;
    }

    /// The version of that number: the policy after the edits that were accepted so far.
    pub fn fix(&self, tick: u64) -> Result<Version, AllocError>
        ensures accepted { AreAccepted J.first self.now.front }
        ensures version { IfOk result (λ version. version ≡ record {
          tick = tick;
          edits = length self.now.front;
          policy = after J.first self.now.front;
        }) }
    {
        self.front.soundness();
        Ok(Version {
            tick,
            edits: self.front.len(),
            policy: self.policy.try_clone()?,
        })
    }
}

// The front with an edit more, which nothing stands against. It is added to the history.
fn grown<J: Board>(rt: &impl Wait, front: &Front<J>, head: &Head<J>, edit: &Edit) -> Front<J>
    requires free { refusal (after J.first front.now) (asked edit.now) ≡ None }
    requires room { length front.now < 2 ^ 63 }
    ensures { result ≡ front.now ++ asked edit.now ∷ [] }
{
    // Never none, as nobody else adds to the history.
    let Some(grown) = front.and(head, edit) else {
        stop(rt);
        unreachable!()
    };
    grown
}

// Shows readers what is posted, in the place of what was.
fn show<J: Board, R: Wait + Drop>(
    rt: &impl Wait,
    writer: &mut WriteHandle<Posted<J>, Posted<J>, R>,
    posted: Posted<J>,
)
    requires { pending writer.old ≡ [] }
    ensures shown { published writer.new ≡ posted }
    ensures none_left { pending writer.new ≡ [] }
{
    // The writer's log got its room as the desk was opened, and is never longer than then.
    if writer.append(posted).is_err() {
        stop(rt);
    }
    // Only the count of a policy's owners could run out.
    if writer.publish().is_err() {
        stop(rt);
    }
}

// Does not return.
fn stop(rt: &impl Wait)
    ensures { ⊥ }
{
    for _ in rt.forever() {}
}
