ghost use Rattle.std.specs.Prelude.{◌≡◌};
ghost use Rattle.vx_region.specs.Regions.{Regions};
ghost use Rattle.vx_region.specs.Subjects.{actor_of};
ghost use Rattle.vx_decide.specs.Verdict.{verdict};

use crate::verdict::Verdict;
use vx_flag::Action;
use vx_geom::Pos;
use vx_region::Subject;

/// What decides by a written policy.
pub trait Decide {
    /// The regions whose policy it is.
    ghost policy: { Self → Regions };

    /// Whether the subject may do this at the place, and the rule that says so (docs/RULES.md). It
    /// takes no memory.
    fn decide(&self, subject: &Subject, action: Action, p: Pos) -> Verdict
        ensures { result ≡ verdict (policy self.now) (actor_of subject.now) action p };
}
