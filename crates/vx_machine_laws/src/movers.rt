ghost use Rattle.vx_machine_laws.specs.Pistons.{TwelveAtMost, TwoMoreAreTaken, OpenRowsArePushed, ShutRowsStay, LongRowsStay, UnpoweredDraw, SettledStay, OthersStay, MovesArePistons, RestlessAreThese};

/// A piston that is in and active pushes the cells before it that move, at most twelve, where what
/// stands behind them is empty or breaks. Where it stays or lies outside the world, or the row is
/// longer, the piston does not move.
pub fn active_pistons_push()
    ensures twelve { TwelveAtMost }
    ensures taken { TwoMoreAreTaken }
    ensures pushed { OpenRowsArePushed }
    ensures shut { ShutRowsStay }
    ensures long { LongRowsStay }
{}

/// A piston that is out and not active always draws back. It takes its own cell and that of its
/// head; a sticky one takes the cell behind its head as well, exactly where that moves.
pub fn unpowered_pistons_draw()
    ensures { UnpoweredDraw }
{}

/// A piston that is in and not active, or out and active, does not move, and nor does what is no
/// piston. Restless is exactly a piston that is neither.
pub fn others_do_not_move()
    ensures settled { SettledStay }
    ensures others { OthersStay }
    ensures restless { RestlessAreThese }
{}

/// Each push is that of a piston that stands there, is in and is active; each draw that of one that
/// is out and not active, and takes the cells of a draw.
pub fn each_move_is_a_piston()
    ensures { MovesArePistons }
{}
