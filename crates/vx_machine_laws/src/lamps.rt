ghost use Rattle.vx_machine_laws.specs.Lamps.{LampsLight, LampsGoOut, LeversStay, PistonsStay};

/// A lamp with power is lit after the tick, whatever it was. One without power stays lit for one
/// tick if it was lit, and then is off and stays off.
pub fn lamps_light_and_go_out()
    ensures light { LampsLight }
    ensures out { LampsGoOut }
{}

/// A tick turns no lever, and leaves each piston as it is, but for the moves that it makes.
pub fn levers_and_pistons_stay()
    ensures levers { LeversStay }
    ensures pistons { PistonsStay }
{}
