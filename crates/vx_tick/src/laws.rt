ghost use Rattle.vx_tick.specs.Laws.{PartsBecomeNext, UnchangedStay, OfTicks, StaysFilled, MovesAreAsked, AskedAreMoves, OthersStay, MadeArePut, TickIsStepped, SteppedIsTick, StepsKeepMaps};
ghost use Rattle.vx_tick.specs.Pairing.{StaysPaired};

/// Before any move is made, each component of a map has become its next part, by the cells and
/// signals with which the tick begins, and all else is as it was, slots of chests too.
pub fn parts_become_next()
    ensures next { PartsBecomeNext }
    ensures others { UnchangedStay }
{}

/// A tick, position by position: its moves are those that pistons ask for; in the cells of those
/// that are made stands what they put there, and in all others what the parts have become. The
/// world stays as large.
pub fn ticks_by_position()
    ensures filled { OfTicks StaysFilled }
    ensures asked { OfTicks MovesAreAsked }
    ensures all { OfTicks AskedAreMoves }
    ensures others { OfTicks OthersStay }
    ensures made { OfTicks MadeArePut }
{}

/// Where each piston that is out has its head before it, and each head its piston behind it, that
/// is so after a tick.
pub fn heads_stay_with_pistons()
    ensures { OfTicks StaysPaired }
{}

/// A map has one tick under a policy, and that is the one of the definition by a function: the same
/// next map and the same fates in the same order.
pub fn there_is_one_tick()
    ensures only { TickIsStepped }
    ensures tick { SteppedIsTick }
    ensures map { StepsKeepMaps }
{}
