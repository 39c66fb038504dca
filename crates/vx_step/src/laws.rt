ghost use Rattle.vx_step.specs.Shares.{EachIsOwn, NoneIsShared};

/// Each sector is that of one worker, and of no other.
pub fn each_sector_has_one_worker()
    ensures some { EachIsOwn }
    ensures only { NoneIsShared }
{}
