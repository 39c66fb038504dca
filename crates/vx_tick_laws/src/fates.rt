ghost use Rattle.vx_tick.specs.Laws.{OfTicks};
ghost use Rattle.vx_tick_laws.specs.ToldFates.{ToldAreEnds, EndsAreTold, ToldInOrder};

/// What is told of a tick. A piston is told as denied exactly where it asks for a move and the
/// policy denies it a cell, at the first such cell and by its rule; as beaten exactly where the
/// policy permits it all cells and a piston that comes before it, and is permitted its own, wants
/// one of them, by the first that does; and as moved exactly where none does. Each is told once, in
/// the order of positions.
pub fn fates_are_told()
    ensures told { OfTicks ToldAreEnds }
    ensures ends { OfTicks EndsAreTold }
    ensures order { OfTicks ToldInOrder }
{}
