ghost use Rattle.vx_machine_laws.specs.Rivals.{RivalsBeat, FirstRivalsBeat};

/// Of two moves that want one cell the one whose piston comes first beats the other, and no others
/// beat. A move is beaten by the first of all that beat it.
pub fn first_rivals_beat()
    ensures rivals { RivalsBeat }
    ensures first { FirstRivalsBeat }
{}
