ghost use Rattle.std.specs.Prelude.{◌≡◌};
ghost use Rattle.vx_region.specs.Subjects.{actor_of};
ghost use Rattle.vx_decide.specs.Cases.{case_of};
ghost use Rattle.vx_decide.specs.Verdict.{by_flag, decided_by, verdict};

use crate::answer::Answer;
use crate::asker::Asker;
use crate::candidates::Candidates;
use crate::decide::Decide;
use crate::inquiry::Inquiry;
use crate::rule::Rule;
use crate::verdict::{Verdict, ruled};
use std::marker::Model;
use vx_flag::{Action, Flag};
use vx_geom::Pos;
use vx_region::{RegionSet, Subject};

/// The policy of a set of regions, asked by walking them all.
#[derive(Drop)]
pub struct Plain<'a> {
    regions: &'a RegionSet,
}

impl<'a> Model for Plain<'a> {
    ghost use Rattle.vx_region.specs.Regions.{Regions};

    ghost Value = { Regions };

    ghost view = { λ a. a.regions.now };
}

impl<'a> Plain<'a> {
    /// The policy of these regions. It takes no memory.
    pub fn new(regions: &'a RegionSet) -> Plain<'a>
        ensures { result ≡ regions.now }
    {
        Plain { regions }
    }
}

impl Decide for Plain<'_> {
    ghost policy = { λ a. a };

    #[tactic(auto, unfolding(crate::specs::Verdict::verdict))]
    fn decide(&self, subject: &Subject, action: Action, p: Pos) -> Verdict {
        self.regions.soundness();
        let asker = Asker::new(self.regions, subject);
        let inquiry = Inquiry {
            asker: &asker,
            place: p,
            candidates: Candidates::all(self.regions),
            unset: &[],
        };
        inquiry.decided_by(action.flag())
    }
}

impl Inquiry<'_> {
    /// The verdict by the flag, and where that is not set by building.
    #[tactic(auto, unfolding(crate::specs::Verdict::decided_by))]
    pub fn decided_by(&self, flag: Flag) -> Verdict
        ensures { result ≡ decided_by flag (case_of self.now) }
    {
        match self.query(flag) {
            Some(answer) => by_flag(flag, answer),
            None => self.build(),
        }
    }
}

// An answer on an action's own flag as a verdict.
fn by_flag(flag: Flag, answer: Answer) -> Verdict
    ensures { result ≡ by_flag flag answer }
{
    let rule = Rule::Flag {
        at: answer.at,
        from: answer.value.from,
        flag,
    };
    ruled(answer.value.state, rule)
}
