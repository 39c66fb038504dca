ghost use Rattle.std.specs.Prelude.{◌≡◌};
ghost use Rattle.std.specs.Result.{result_err};
ghost use Rattle.vx_cause.specs.Judging.{denial};

use vx_decide::{Decide, Rule, Verdict};
use vx_flag::Action;
use vx_geom::Pos;
use vx_piston::Move;
use vx_region::Subject;

/// Whether the policy permits the machine at a move's piston every cell of the move; else the first
/// cell, in the order of the move, that it denies, with the rule that says so (docs/RULES.md). It
/// asks once a cell, and takes no memory.
#[tactic(auto, unfolding(crate::specs::Judging::denial, crate::specs::Judging::first_denied))]
pub fn judge<D: Decide>(policy: &D, m: &Move) -> Result<(), (Pos, Rule)>
    ensures { result_err result ≡ denial (D.policy policy.now) m.now }
{
    let machine = Subject::Machine(m.at);
    for p in m.cells.as_slice() {
        if let Verdict::Deny(rule) = policy.decide(&machine, Action::Pushing, *p) {
            return Err((*p, rule));
        }
    }
    Ok(())
}
