ghost use Rattle.vx_machine_laws.specs.Dust.{DustLinksToThese, DustJoinsThese, TorchesOutAreJoined};

/// Dust links to dust beside it, to dust one higher where nothing over it conducts, and to dust one
/// lower where nothing over that conducts; to nothing else.
pub fn dust_links_to_these()
    ensures { DustLinksToThese }
{}

/// Dust joins on a side exactly what it links to there, a torch, a lever, and a repeater that faces
/// that way or the opposite. It joins a torch that is out as well.
pub fn dust_joins_these()
    ensures joins { DustJoinsThese }
    ensures out { TorchesOutAreJoined }
{}
