ghost use Rattle.vx_decide.specs.Laws.{DecidedIsAnswer, AnswersAreOne, AnswerIsDecided, TakenSpeaksLowest, SpeaksLowestIsTaken, OneDenialDenies, DeciderContainsThePlace, TopIsHighest, HigherPriorityDecides, ChildStandsBeforeParent, ChildAtTheSamePriority, ValueIsInherited, InheritedIsTheValue, ValueIsFromTheAncestry, NoValueIsSet, MembershipDeniesWhereOneFails, MembershipPermitsWhereNoneFails, RuleOfTheVerdictHolds, RuleThatHoldsIsTheVerdict, VerdictNamesARegionAtThePlace, NothingSaidPermits, EmptyWorldPermitsAll, ValuesAtThePlaceDecide, DefaultOnlyWhereNothingIsSaid};

/// What the regions at a place decide is the one answer: of those taken, the least that denies,
/// else the least.
pub fn one_answer()
    ensures answer { DecidedIsAnswer }
    ensures one { AnswersAreOne }
    ensures decided { AnswerIsDecided }
{}

/// A region is taken exactly where none that counts has a higher priority, it has a value, and it
/// is no ancestor of another such.
pub fn taken_speaks_lowest()
    ensures lowest { TakenSpeaksLowest }
    ensures taken { SpeaksLowestIsTaken }
{}

/// Where one region that is taken denies, the answer denies.
pub fn one_denial_denies()
    ensures { OneDenialDenies }
{}

/// The region that decides contains the place.
pub fn decider_contains_the_place()
    ensures { DeciderContainsThePlace }
{}

/// Only regions of the highest priority decide.
pub fn highest_priority_decides()
    ensures top { TopIsHighest }
    ensures higher { HigherPriorityDecides }
{}

/// A region stands before its ancestors of no higher priority.
pub fn child_stands_before_parent()
    ensures speaks { ChildStandsBeforeParent }
    ensures counts { ChildAtTheSamePriority }
{}

/// The value of a flag is that of the nearest region of the ancestry that sets it for the actor.
pub fn value_is_inherited()
    ensures inherited { ValueIsInherited }
    ensures value { InheritedIsTheValue }
    ensures ancestry { ValueIsFromTheAncestry }
    ensures none { NoValueIsSet }
{}

/// Membership denies at a region that does not admit the actor, nor any below it, and permits where
/// each region is satisfied.
pub fn membership_is_grounded()
    ensures denies { MembershipDeniesWhereOneFails }
    ensures permits { MembershipPermitsWhereNoneFails }
{}

/// A verdict is by one rule exactly where that rule holds, and the region that it names contains
/// the place.
pub fn verdict_names_its_region()
    ensures holds { RuleOfTheVerdictHolds }
    ensures only { RuleThatHoldsIsTheVerdict }
    ensures place { VerdictNamesARegionAtThePlace }
{}

/// Where nothing is said, all is permitted; so where there is no region and nothing is set at
/// large.
pub fn nothing_said_permits()
    ensures said { NothingSaidPermits }
    ensures empty { EmptyWorldPermitsAll }
{}

/// A value that some region at the place has is not passed over, so only where nothing is said is
/// the verdict by default.
pub fn default_only_where_nothing_is_said()
    ensures values { ValuesAtThePlaceDecide }
    ensures default { DefaultOnlyWhereNothingIsSaid }
{}
