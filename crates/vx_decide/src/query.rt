ghost use Rattle.std.specs.Prelude.{◌≡◌, ◌&&◌, if◌then◌else◌, Some, option_map};
ghost use Rattle.vx_region.specs.Ancestry.{is_above};
ghost use Rattle.vx_region.specs.Regions.{region_at};
ghost use Rattle.vx_decide.specs.Cases.{case_of};
ghost use Rattle.vx_decide.specs.Query.{counts, is_top, speaks, is_taken, is_denying, first_denying, first_taken, decider, answer_at, decided, query};
ghost use Rattle.vx_decide.specs.RegionGroups.{is_above_one, none_higher};
ghost use Rattle.vx_decide.specs.Tops.{top, raised, is_at_most};

use crate::answer::Answer;
use crate::contest::Contest;
use crate::effective::{effective, effective_of, has_value, is_deny};
use crate::inquiry::Inquiry;
use crate::question::Question;
use vx_flag::Flag;
use vx_region::{Region, RegionNo};

impl Inquiry<'_> {
    /// What the policy answers on a flag at the place: the regions there, and where none of them
    /// has a value the world at large; `None` where that has no value either.
    #[tactic(auto, unfolding(crate::specs::Query::query))]
    pub fn query(&self, flag: Flag) -> Option<Answer>
        ensures { result ≡ query flag (case_of self.now) }
    {
        if self.is_unset(flag) {
            return None;
        }
        let decided = self.contest(Question::OnFlag(flag)).decided();
        if decided.is_some() {
            return decided;
        }
        self.answer_at(flag, RegionNo(0))
    }

    /// The contest of the regions at the place on that question.
    pub fn contest(&self, question: Question) -> Contest<'_>
        ensures inquiry { result.inquiry.now ≡ self.now }
        ensures question { result.question ≡ question }
    {
        Contest {
            inquiry: self,
            question,
            best: self.top(question),
        }
    }

    // The highest priority of a region that counts on the question.
    #[tactic(auto, unfolding(crate::specs::Tops::top))]
    fn top(&self, question: Question) -> Option<i32>
        ensures { result
            ≡ top (counts question (case_of self.now)) self.now.asker.now.regions.now.entries }
    {
        let mut best = None;
        for i in 0..self.candidates.count() {
            let (number, region) = self.candidates.nth(i);
            best = self.best_with(question, best, number, region);
        }
        best
    }

    // The best so far, or the priority of this region, if it counts and is higher. Whether it
    // counts is asked only where it is higher.
    fn best_with(
        &self,
        question: Question,
        best: Option<i32>,
        number: RegionNo,
        region: &Region,
    ) -> Option<i32>
        requires { region_at self.now.asker.now.regions.now number.0 ≡ Some region.now }
        ensures { result ≡ (if counts question (case_of self.now) (number.0, region.now)
            then Some (raised best region.now.priority) else best) }
    {
        let higher = Some(raised(best, region.priority()));
        if best == higher {
            return best;
        }
        if self.counts(question, number, region) {
            return higher;
        }
        best
    }

    /// The value of the flag at the region of that number, 0 for the world at large, as an answer
    /// of this region.
    #[tactic(auto, unfolding(crate::specs::Query::answer_at))]
    pub fn answer_at(&self, flag: Flag, at: RegionNo) -> Option<Answer>
        ensures { result ≡ answer_at (case_of self.now) flag at.0 }
    {
        let value = effective(self.asker, flag, at)?;
        Some(Answer { at, value })
    }
}

impl Contest<'_> {
    /// What the regions at the place answer: of those of highest priority that have a value,
    /// ancestors of others left out, the least that denies, else the least.
    #[tactic(auto, unfolding(crate::specs::Query::decided), using(crate::proofs::Shortcuts::none_decides))]
    pub fn decided(&self) -> Option<Answer>
        ensures { result ≡ decided self.now.question (case_of self.now.inquiry.now) }
    {
        if self.best.is_none() {
            return None;
        }
        if self.inquiry.is_unset(self.question.flag()) {
            return None;
        }
        let decider = self.decider()?;
        self.inquiry.answer_at(self.question.flag(), decider)
    }

    /// Whether the region counts and none that counts has a higher priority.
    #[tactic(auto, unfolding(crate::specs::Query::is_top, crate::specs::RegionGroups::is_highest))]
    pub fn is_top(&self, number: RegionNo, region: &Region) -> bool
        requires { region_at self.now.inquiry.now.asker.now.regions.now number.0
            ≡ Some region.now }
        ensures { result
            ≡ is_top self.now.question (case_of self.now.inquiry.now) (number.0, region.now) }
    {
        self.is_high(region) && self.inquiry.counts(self.question, number, region)
    }

    /// Whether no region that counts has a higher priority than this one.
    #[tactic(auto, using(crate::proofs::Highest::highest))]
    pub fn is_high(&self, region: &Region) -> bool
        ensures { result ≡ none_higher (counts self.now.question (case_of self.now.inquiry.now))
            self.now.inquiry.now.asker.now.regions.now.entries region.now.priority }
    {
        is_at_most(self.best, region.priority())
    }

    #[tactic(auto, unfolding(crate::specs::Query::decider))]
    fn decider(&self) -> Option<RegionNo>
        ensures { option_map (λ n. n.0) result
            ≡ decider self.now.question (case_of self.now.inquiry.now) }
    {
        let first = self.first_denying();
        if first.is_some() {
            return first;
        }
        self.first_taken()
    }

    fn first_denying(&self) -> Option<RegionNo>
        ensures { option_map (λ n. n.0) result
            ≡ first_denying self.now.question (case_of self.now.inquiry.now) }
    {
        for i in 0..self.inquiry.candidates.count() {
            let (number, region) = self.inquiry.candidates.nth(i);
            if self.is_denying(number, region) {
                return Some(number);
            }
        }
        None
    }

    fn first_taken(&self) -> Option<RegionNo>
        ensures { option_map (λ n. n.0) result
            ≡ first_taken self.now.question (case_of self.now.inquiry.now) }
    {
        for i in 0..self.inquiry.candidates.count() {
            let (number, region) = self.inquiry.candidates.nth(i);
            if self.is_taken(number, region) {
                return Some(number);
            }
        }
        None
    }

    // Whether the region is taken and its value denies.
    #[tactic(auto, using(crate::proofs::Shortcuts::denying_high))]
    fn is_denying(&self, number: RegionNo, region: &Region) -> bool
        requires { region_at self.now.inquiry.now.asker.now.regions.now number.0
            ≡ Some region.now }
        ensures { result
            ≡ is_denying self.now.question (case_of self.now.inquiry.now) (number.0, region.now) }
    {
        self.is_high(region) && self.denies_there(number, region)
    }

    // Whether the region is taken and its value denies, where it is known that no region that counts
    // has a higher priority.
    #[tactic(auto, unfolding(crate::specs::Query::contains), using(crate::proofs::Shortcuts::denying_there))]
    fn denies_there(&self, number: RegionNo, region: &Region) -> bool
        requires { region_at self.now.inquiry.now.asker.now.regions.now number.0
            ≡ Some region.now }
        ensures { result
            ≡ is_denying self.now.question (case_of self.now.inquiry.now) (number.0, region.now) }
    {
        region.contains(self.inquiry.place) && self.denies_if_taken(number, region)
    }

    // Whether a region that holds the place is taken and its value denies; the value is asked for
    // first, since it costs less than the regions below.
    #[tactic(auto, unfolding(crate::specs::Query::is_denying))]
    fn denies_if_taken(&self, number: RegionNo, region: &Region) -> bool
        requires { region_at self.now.inquiry.now.asker.now.regions.now number.0
            ≡ Some region.now }
        ensures { result
            ≡ is_denying self.now.question (case_of self.now.inquiry.now) (number.0, region.now) }
    {
        let Contest {
            inquiry,
            question,
            ..
        } = self;
        let value = effective_of(inquiry.asker, question.flag(), number, region);
        is_deny(value) && self.is_taken(number, region)
    }

    // Whether the region speaks and is no ancestor of another that does.
    #[tactic(auto, unfolding(crate::specs::Query::is_taken, crate::specs::RegionGroups::is_lowest))]
    fn is_taken(&self, number: RegionNo, region: &Region) -> bool
        requires { region_at self.now.inquiry.now.asker.now.regions.now number.0
            ≡ Some region.now }
        ensures { result
            ≡ is_taken self.now.question (case_of self.now.inquiry.now) (number.0, region.now) }
    {
        self.speaks(number, region) && !self.is_above_speaking(number)
    }

    // Whether the region of the number is an ancestor of one that speaks.
    fn is_above_speaking(&self, number: RegionNo) -> bool
        ensures { result ≡ is_above_one (speaks self.now.question (case_of self.now.inquiry.now))
            self.now.inquiry.now.asker.now.regions.now number.0 }
    {
        // One without a child is an ancestor of none, and most regions have no child.
        if !self.inquiry.asker.regions.has_child(number) {
            return false;
        }
        for i in 0..self.inquiry.candidates.count() {
            let (lower, region) = self.inquiry.candidates.nth(i);
            if self.speaks_below(number, lower, region) {
                return true;
            }
        }
        false
    }

    // Whether `upper` is an ancestor of the region, and this one speaks.
    fn speaks_below(&self, upper: RegionNo, number: RegionNo, region: &Region) -> bool
        requires { region_at self.now.inquiry.now.asker.now.regions.now number.0
            ≡ Some region.now }
        ensures { result ≡ (is_above self.now.inquiry.now.asker.now.regions.now upper.0 region.now
            && speaks self.now.question (case_of self.now.inquiry.now) (number.0, region.now)) }
    {
        self.inquiry.asker.regions.is_above(upper, region) && self.speaks(number, region)
    }

    // Whether the region is of highest priority and has a value.
    #[tactic(auto, unfolding(crate::specs::Query::speaks))]
    fn speaks(&self, number: RegionNo, region: &Region) -> bool
        requires { region_at self.now.inquiry.now.asker.now.regions.now number.0
            ≡ Some region.now }
        ensures { result
            ≡ speaks self.now.question (case_of self.now.inquiry.now) (number.0, region.now) }
    {
        let Contest {
            inquiry,
            question,
            ..
        } = self;
        self.is_top(number, region) && has_value(inquiry.asker, question.flag(), number, region)
    }
}

// The greater of the two.
fn raised(best: Option<i32>, priority: i32) -> i32
    ensures { result ≡ raised best priority }
{
    match best {
        Some(best) => best.max(priority),
        None => priority,
    }
}

// Whether the best, if there is one, is not above the priority.
#[tactic(auto, unfolding(crate::specs::Tops::is_at_most))]
fn is_at_most(best: Option<i32>, priority: i32) -> bool
    ensures { result ≡ is_at_most best priority }
{
    match best {
        Some(best) => best <= priority,
        None => true,
    }
}
