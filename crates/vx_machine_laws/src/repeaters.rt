ghost use Rattle.vx_machine_laws.specs.Repeaters.{LockedAreThese, OthersDoNotLock, UnlockedFollow, AtRestStays, CountsBegin, CountsGoOn, CountsEndOn, CountsEndAsInput, PulsesGoThrough};

/// A repeater is locked exactly where a repeater that is on stands at one of its two sides and
/// faces it. One that is off there, or that faces elsewhere, does not lock it.
pub fn repeaters_lock()
    ensures locked { LockedAreThese }
    ensures others { OthersDoNotLock }
{}

/// A repeater that is not locked counts by its input, which is on exactly where what stands behind
/// it gives it power.
pub fn repeaters_follow_what_is_behind()
    ensures { UnlockedFollow }
{}

/// A repeater at rest begins a count of its delay where its input differs from it. The count goes
/// on, one a tick, whatever the input does. At its end a repeater that was off goes on, so that the
/// shortest pulse goes through, and one that was on is as its input at the last tick.
pub fn repeaters_count_to_the_end()
    ensures rest { AtRestStays }
    ensures begin { CountsBegin }
    ensures go_on { CountsGoOn }
    ensures on { CountsEndOn }
    ensures as_input { CountsEndAsInput }
    ensures pulse { PulsesGoThrough }
{}
