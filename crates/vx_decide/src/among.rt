ghost use Rattle.std.specs.Prelude.{◌≡◌};
ghost use Rattle.std.specs.List.{All};
ghost use Rattle.vx_region.specs.Subjects.{actor_of};
ghost use Rattle.vx_decide.specs.Candidates.{HoldCandidates};
ghost use Rattle.vx_decide.specs.Unset.{IsUnset};
ghost use Rattle.vx_decide.specs.Verdict.{verdict};

use crate::asker::Asker;
use crate::candidates::Candidates;
use crate::inquiry::Inquiry;
use crate::verdict::Verdict;
use vx_flag::{Action, Flag};
use vx_geom::Pos;

/// The verdict of the policy of the asker's regions, asked of those of these numbers alone. These
/// flags are set nowhere. It takes no memory, and costs what those regions are and their
/// ancestries, and a look at the asker's hosts where domains are listed there.
#[tactic(auto, unfolding(crate::specs::Verdict::verdict))]
pub fn decide_among(
    asker: &Asker,
    numbers: &[u32],
    unset: &[Flag],
    action: Action,
    p: Pos,
) -> Verdict
    requires numbers { HoldCandidates asker.now.regions.now p numbers.now }
    requires unset { All (IsUnset asker.now.regions.now) unset.now }
    ensures { result
        ≡ verdict asker.now.regions.now (actor_of asker.now.subject.now) action p }
{
    asker.regions.soundness();
    let inquiry = Inquiry {
        asker,
        place: p,
        candidates: Candidates::at(asker.regions, numbers),
        unset,
    };
    inquiry.decided_by(action.flag())
}
