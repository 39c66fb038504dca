ghost use Rattle.vx_part.specs.Laws.{DustKeepsItsLevel, TorchesInvert, LockedRepeatersStay, RepeatersDelay, LampsGoOutLate, PartsRead, PartsReadShown, PartsHeed, PartsKeepTheirBuild, OthersStay};

/// Dust keeps its level, and a torch inverts the power of its block, a tick later.
pub fn dust_keeps_torches_invert()
    ensures dust { DustKeepsItsLevel }
    ensures torch { TorchesInvert }
{}

/// A locked repeater stays as it is; one at rest follows an input that stays the same after the
/// ticks of its delay, and not before.
pub fn repeaters_delay_and_lock()
    ensures locked { LockedRepeatersStay }
    ensures delay { RepeatersDelay }
{}

/// A lamp that loses its power stays lit for one tick more.
pub fn lamps_go_out_late()
    ensures { LampsGoOutLate }
{}

/// What stands at a position after a tick is decided by the cells that four steps lead to and the
/// levels that two steps lead to.
pub fn parts_read_four_steps()
    ensures { PartsRead }
{}

/// Of the other cells that four steps lead to, it is decided by what they show alone.
pub fn parts_read_what_is_shown()
    ensures { PartsReadShown }
{}

/// Where they are built alike it is decided by what is shown beside a part, and beside a conductor
/// that is beside it, and by which dust has power there; and that of dust by its level.
pub fn parts_heed_what_is_near()
    ensures { PartsHeed }
{}

/// A tick turns parts on or off, pistons left out, and leaves each as it is built.
pub fn parts_keep_their_build()
    ensures { PartsKeepTheirBuild }
{}

/// What is no component of machines stays as it is.
pub fn other_cells_stay()
    ensures { OthersStay }
{}
