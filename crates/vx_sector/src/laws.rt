ghost use Rattle.vx_sector.specs.Laws.{OnePlaceChanges, RefusalLeavesCells, OutsideIsRefused, DeniedByThePolicy, ShownByLeave, LookingChangesNothing, OpeningChangesNothing, PuttingAddsSoMany, TakingLeavesSoManyFewer, TurningKeepsTheFacing, StaysWhole, LeavesExtended};

/// A command changes nothing but at the position that it speaks of, neither cells nor slots.
pub fn one_place_changes()
    ensures { OnePlaceChanges }
{}

/// A refusal leaves every cell and every slot as it was.
pub fn refusal_leaves_cells()
    ensures { RefusalLeavesCells }
{}

/// A command is out of the world exactly where its position is not of the sector.
pub fn outside_is_refused()
    ensures { OutsideIsRefused }
{}

/// A command is denied exactly where the policy denies the action that it asks leave for, and by
/// that rule.
pub fn denied_by_the_policy()
    ensures { DeniedByThePolicy }
{}

/// Slots are shown only by leave to reach into the chest, and as they are.
pub fn shown_by_leave()
    ensures { ShownByLeave }
{}

/// Looking and opening change no cell and no slot, whatever is answered.
pub fn seeing_changes_nothing()
    ensures look { LookingChangesNothing }
    ensures open { OpeningChangesNothing }
{}

/// A put that the rules allow adds so many of its item to its slot, which held nothing else, and
/// leaves every other slot of the chest as it was.
pub fn putting_adds_so_many()
    ensures { PuttingAddsSoMany }
{}

/// A take that the rules allow leaves exactly so many fewer of the one item that was in its slot,
/// and every other slot of the chest as it was.
pub fn taking_leaves_so_many_fewer()
    ensures { TakingLeavesSoManyFewer }
{}

/// Turning a lever changes its state alone: it keeps its facing.
pub fn turning_keeps_the_facing()
    ensures { TurningKeepsTheFacing }
{}

/// A command leaves a sector whole: it keeps its number and its size, something stands at each of
/// its places, and each chest has its slots.
pub fn sectors_stay_whole()
    ensures { StaysWhole }
{}

/// A command leaves each extended piston and each head as it is, and puts none where none was.
pub fn extended_pistons_stay()
    ensures { LeavesExtended }
{}
