ghost use Rattle.std.specs.Prelude.{◌≡◌};
ghost use Rattle.vx_decide.specs.Build.{ruled};

use crate::rule::Rule;
use vx_flag::State;

/// What the policy says to a subject on an action at a place, and by which rule.
#[derive(Clone, Copy, Debug, PartialEq, Eq)]
pub enum Verdict {
    Permit(Rule),
    Deny(Rule),
}

/// A state as the verdict by a rule.
pub fn ruled(state: State, rule: Rule) -> Verdict
    ensures { result ≡ ruled state rule }
{
    match state {
        State::Allow => Verdict::Permit(rule),
        State::Deny => Verdict::Deny(rule),
    }
}
