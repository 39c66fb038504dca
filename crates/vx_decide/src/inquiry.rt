ghost use Rattle.std.specs.Prelude.{◌≡◌, true, Some};
ghost use Rattle.std.specs.List.{All};
ghost use Rattle.vx_region.specs.Regions.{region_at};
ghost use Rattle.vx_region.specs.Subjects.{actor_of};
ghost use Rattle.vx_decide.specs.Candidates.{AreOf, Suffice};
ghost use Rattle.vx_decide.specs.Effective.{effective, has_value};
ghost use Rattle.vx_decide.specs.Unset.{IsUnset};

use crate::asker::Asker;
use crate::candidates::Candidates;
use crate::effective::{effective_of, is_allow};
use crate::question::Question;
use crate::value::Value;
use vx_flag::Flag;
use vx_geom::Pos;
use vx_region::{Region, RegionNo};

/// What a policy is asked: who asks, of which regions, and where; and the regions that are looked
/// at, which hold each that contains the place; and flags that are known to be set nowhere.
#[derive(Drop)]
pub struct Inquiry<'a> {
    pub asker: &'a Asker<'a>,
    pub place: Pos,
    pub candidates: Candidates<'a>,
    pub unset: &'a [Flag],
    ghost whole: { Suffice asker.now.regions.now.entries place candidates },
    ghost known: { AreOf asker.now.regions.now candidates },
    ghost silent: { All (IsUnset asker.now.regions.now) unset.now },
}

impl Inquiry<'_> {
    ghost use Rattle.vx_decide.specs.Cases.{case_of};
    ghost use Rattle.vx_decide.specs.Query.{contains, has_say, counts};

    /// Whether the region has a say on the question: a value of its own, or on building also that
    /// it does not let pass.
    #[tactic(auto, unfolding(crate::specs::Query::has_say))]
    pub fn has_say(&self, question: Question, number: RegionNo, region: &Region) -> bool
        requires { region_at self.now.asker.now.regions.now number.0 ≡ Some region.now }
        ensures { result ≡ has_say question (case_of self.now) number.0 }
    {
        match question {
            Question::OnFlag(flag) => self.has_value(flag, number, region),
            Question::OnBuilding => {
                self.has_value(Flag::Build, number, region)
                    || !is_allow(self.effective(Flag::Passthrough, number, region))
            }
        }
    }

    #[tactic(auto, unfolding(crate::specs::Effective::has_value))]
    fn has_value(&self, flag: Flag, number: RegionNo, region: &Region) -> bool
        requires { region_at self.now.asker.now.regions.now number.0 ≡ Some region.now }
        ensures { result ≡ has_value self.now.asker.now.regions.now
            (actor_of self.now.asker.now.subject.now) flag number.0 }
    {
        self.effective(flag, number, region).is_some()
    }

    // The value of the flag at the region of that number, found at once where it is set nowhere.
    fn effective(&self, flag: Flag, number: RegionNo, region: &Region) -> Option<Value>
        requires { region_at self.now.asker.now.regions.now number.0 ≡ Some region.now }
        ensures { result ≡ effective self.now.asker.now.regions.now
            (actor_of self.now.asker.now.subject.now) flag number.0 }
    {
        if self.is_unset(flag) {
            return None;
        }
        effective_of(self.asker, flag, number, region)
    }

    /// Whether the flag is known to be set nowhere.
    pub fn is_unset(&self, flag: Flag) -> bool
        ensures { result ≡ true → IsUnset self.now.asker.now.regions.now flag }
    {
        for unset in self.unset {
            if *unset == flag {
                return true;
            }
        }
        false
    }

    /// Whether the region contains the place and has a say on the question.
    #[tactic(auto, unfolding(crate::specs::Query::counts, crate::specs::Query::contains))]
    pub fn counts(&self, question: Question, number: RegionNo, region: &Region) -> bool
        requires { region_at self.now.asker.now.regions.now number.0 ≡ Some region.now }
        ensures { result ≡ counts question (case_of self.now) (number.0, region.now) }
    {
        region.contains(self.place) && self.has_say(question, number, region)
    }
}
