ghost use Rattle.std.specs.Prelude.{◌≡◌, ◌&&◌, option_map, Some};
ghost use Rattle.vx_region.specs.Ancestry.{is_above};
ghost use Rattle.vx_region.specs.Regions.{region_at};
ghost use Rattle.vx_decide.specs.Cases.{case_of};
ghost use Rattle.vx_decide.specs.Build.{is_insider, admits, is_home, is_satisfied, is_failing, first_failing, first_home, ruled, by_build, in_the_open, by_passthrough, by_membership, build};
ghost use Rattle.vx_decide.specs.RegionGroups.{is_above_one};
ghost use Rattle.vx_decide.specs.declared.question.Question.TheVariants.{OnBuilding};

use crate::answer::Answer;
use crate::contest::Contest;
use crate::effective::{effective, is_deny};
use crate::inquiry::Inquiry;
use crate::question::Question;
use crate::rule::Rule;
use crate::verdict::{Verdict, ruled};
use vx_flag::{Association, Flag};
use vx_region::{Region, RegionNo};

// The contest on building.
#[derive(Drop)]
struct Building<'a> {
    contest: Contest<'a>,
    ghost on_building: { contest.question ≡ OnBuilding },
}

impl Inquiry<'_> {
    /// What the policy says on building at the place: the regions of highest priority there by the
    /// flag, and where none of them sets it by membership; where no region counts, the world at
    /// large.
    #[tactic(auto, unfolding(crate::specs::Build::build), using(crate::proofs::Shortcuts::none_builds))]
    pub fn build(&self) -> Verdict
        ensures { result ≡ build (case_of self.now) }
    {
        let contest = self.contest(Question::OnBuilding);
        if contest.best.is_none() {
            return self.in_the_open();
        }
        match contest.decided() {
            Some(answer) => by_build(answer),
            None => Building { contest }.by_membership(),
        }
    }

    // What the world at large says, where no region counts.
    #[tactic(auto, unfolding(crate::specs::Build::in_the_open))]
    fn in_the_open(&self) -> Verdict
        ensures { result ≡ in_the_open (case_of self.now) }
    {
        match self.answer_at(Flag::Build, RegionNo(0)) {
            Some(answer) => by_build(answer),
            None => self.by_passthrough(),
        }
    }

    #[tactic(auto, unfolding(crate::specs::Build::by_passthrough))]
    fn by_passthrough(&self) -> Verdict
        ensures { result ≡ by_passthrough (case_of self.now) }
    {
        let global = RegionNo(0);
        if is_deny(effective(self.asker, Flag::Passthrough, global)) {
            return Verdict::Deny(Rule::Member { at: global });
        }
        Verdict::Permit(Rule::Default)
    }

    // Whether the subject is an owner or a member of the region of the number.
    #[tactic(auto, unfolding(crate::specs::Build::admits))]
    fn admits(&self, number: RegionNo) -> bool
        ensures { result ≡ admits (case_of self.now) number.0 }
    {
        is_insider(self.asker.association(number))
    }
}

impl Building<'_> {
    #[tactic(auto, unfolding(crate::specs::Build::by_membership))]
    fn by_membership(&self) -> Verdict
        ensures { result ≡ by_membership (case_of self.now.contest.inquiry.now) }
    {
        match self.first_failing() {
            Some(at) => Verdict::Deny(Rule::Member { at }),
            None => match self.first_home() {
                Some(at) => Verdict::Permit(Rule::Member { at }),
                None => self.contest.inquiry.in_the_open(),
            },
        }
    }

    fn first_failing(&self) -> Option<RegionNo>
        ensures { option_map (λ n. n.0) result
            ≡ first_failing (case_of self.now.contest.inquiry.now) }
    {
        for i in 0..self.contest.inquiry.candidates.count() {
            let (number, region) = self.contest.inquiry.candidates.nth(i);
            if self.is_failing(number, region) {
                return Some(number);
            }
        }
        None
    }

    fn first_home(&self) -> Option<RegionNo>
        ensures { option_map (λ n. n.0) result
            ≡ first_home (case_of self.now.contest.inquiry.now) }
    {
        for i in 0..self.contest.inquiry.candidates.count() {
            let (number, region) = self.contest.inquiry.candidates.nth(i);
            if self.is_home(number, region) {
                return Some(number);
            }
        }
        None
    }

    // Whether the region is of highest priority and not satisfied.
    #[tactic(auto, unfolding(crate::specs::Build::is_failing))]
    fn is_failing(&self, number: RegionNo, region: &Region) -> bool
        requires { region_at self.now.contest.inquiry.now.asker.now.regions.now number.0
            ≡ Some region.now }
        ensures { result
            ≡ is_failing (case_of self.now.contest.inquiry.now) (number.0, region.now) }
    {
        self.contest.is_top(number, region) && !self.is_satisfied(number)
    }

    // Whether the region admits the subject, or is an ancestor of one of highest priority that
    // does.
    #[tactic(auto, unfolding(crate::specs::Build::is_satisfied))]
    fn is_satisfied(&self, number: RegionNo) -> bool
        ensures { result ≡ is_satisfied (case_of self.now.contest.inquiry.now) number.0 }
    {
        self.contest.inquiry.admits(number) || self.is_above_home(number)
    }

    // Whether the region of the number is an ancestor of one of highest priority that admits the
    // subject.
    fn is_above_home(&self, number: RegionNo) -> bool
        ensures { result ≡ is_above_one (is_home (case_of self.now.contest.inquiry.now))
            self.now.contest.inquiry.now.asker.now.regions.now number.0 }
    {
        // One without a child is an ancestor of none, and most regions have no child.
        if !self.contest.inquiry.asker.regions.has_child(number) {
            return false;
        }
        for i in 0..self.contest.inquiry.candidates.count() {
            let (lower, region) = self.contest.inquiry.candidates.nth(i);
            if self.is_home_below(number, lower, region) {
                return true;
            }
        }
        false
    }

    // Whether `upper` is an ancestor of the region, and this one is of highest priority and admits
    // the subject.
    fn is_home_below(&self, upper: RegionNo, number: RegionNo, region: &Region) -> bool
        requires { region_at self.now.contest.inquiry.now.asker.now.regions.now number.0
            ≡ Some region.now }
        ensures { result
            ≡ (is_above self.now.contest.inquiry.now.asker.now.regions.now upper.0 region.now
            && is_home (case_of self.now.contest.inquiry.now) (number.0, region.now)) }
    {
        self.contest.inquiry.asker.regions.is_above(upper, region) && self.is_home(number, region)
    }

    // Whether the region is of highest priority and admits the subject.
    #[tactic(auto, using(crate::proofs::Shortcuts::home_high))]
    fn is_home(&self, number: RegionNo, region: &Region) -> bool
        requires { region_at self.now.contest.inquiry.now.asker.now.regions.now number.0
            ≡ Some region.now }
        ensures { result ≡ is_home (case_of self.now.contest.inquiry.now) (number.0, region.now) }
    {
        self.contest.is_high(region) && self.is_home_there(number, region)
    }

    // Whether the region is of highest priority and admits the subject, where it is known that no
    // region that counts has a higher priority.
    #[tactic(auto, unfolding(crate::specs::Query::contains), using(crate::proofs::Shortcuts::home_there))]
    fn is_home_there(&self, number: RegionNo, region: &Region) -> bool
        requires { region_at self.now.contest.inquiry.now.asker.now.regions.now number.0
            ≡ Some region.now }
        ensures { result ≡ is_home (case_of self.now.contest.inquiry.now) (number.0, region.now) }
    {
        region.contains(self.contest.inquiry.place) && self.admits_on_top(number, region)
    }

    // Whether a region that holds the place is of highest priority and admits the subject; the
    // subject is asked about first.
    #[tactic(auto, unfolding(crate::specs::Build::is_home))]
    fn admits_on_top(&self, number: RegionNo, region: &Region) -> bool
        requires { region_at self.now.contest.inquiry.now.asker.now.regions.now number.0
            ≡ Some region.now }
        ensures { result ≡ is_home (case_of self.now.contest.inquiry.now) (number.0, region.now) }
    {
        self.contest.inquiry.admits(number) && self.contest.is_top(number, region)
    }
}

fn is_insider(association: Association) -> bool
    ensures { result ≡ is_insider association }
{
    matches!(association, Association::Owner | Association::Member)
}

// An answer on building as a verdict.
fn by_build(answer: Answer) -> Verdict
    ensures { result ≡ by_build answer }
{
    let rule = Rule::Build {
        at: answer.at,
        from: answer.value.from,
    };
    ruled(answer.value.state, rule)
}
