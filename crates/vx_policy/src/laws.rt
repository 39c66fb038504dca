//! What follows from the definitions of an edit, whatever the regions.
ghost use Rattle.vx_policy.specs.Laws.{RefusedByTheFirst, AcceptedWithoutCause, LastEditIsMade, LastEditIsAccepted, OthersAreKept, DefinitionKeepsOthers, NumberIsNew, NumberIsTheLast, LastIsKept, LaterNumbersAreHigher, FlagsSurviveAReshape, FlagsAtLargeAreKept, RegionsAreKept};

/// An edit is refused for the first cause that stands against it, and accepted exactly where none
/// does.
pub fn refused_by_the_first_cause()
    ensures first { RefusedByTheFirst }
    ensures none { AcceptedWithoutCause }
{}

/// Of several edits the last changes what the others left, and all are accepted exactly where the
/// others are and then the last is.
pub fn edits_in_turn()
    ensures made { LastEditIsMade }
    ensures accepted { LastEditIsAccepted }
{}

/// An edit leaves each region but the one that it names, or defines, as it was.
pub fn one_region_is_edited()
    ensures named { OthersAreKept }
    ensures defined { DefinitionKeepsOthers }
{}

/// A definition gives a number above all that were given before, also to regions that were removed
/// since.
pub fn numbers_are_never_given_twice()
    ensures new { NumberIsNew }
    ensures given { NumberIsTheLast }
    ensures kept { LastIsKept }
    ensures later { LaterNumbersAreHigher }
{}

/// Another shape leaves each flag of each region, and of the world at large, as it was.
pub fn flags_survive_a_reshape()
    ensures { FlagsSurviveAReshape }
{}

/// An edit of a region leaves the flags of the world at large, and an edit of the world at large
/// leaves the regions.
pub fn world_at_large_is_apart()
    ensures flags { FlagsAtLargeAreKept }
    ensures regions { RegionsAreKept }
{}
