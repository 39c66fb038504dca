//! What is known of maps by the levels that dust stores.
ghost use Rattle.vx_still.specs.Mirrored.{WritesKeepMirror, TicksLeaveMirror};
ghost use Rattle.vx_still.specs.Watching.{WritesKeepWatch, TicksLeaveWatch};
ghost use Rattle.vx_still.specs.Stillness.{WritesKeepStill, TicksLeaveStill, StillRests, MirrorsAgree, TicksMirror, PartsReadPower, OthersRest, DustRests};

/// Far from what was rebuilt or turned the levels that dust stores agree, and what stays by them rests
/// where they are right: so it is after writes and after ticks.
pub fn maps_stay_still()
    ensures writes { WritesKeepStill }
    ensures ticks { TicksLeaveStill }
    ensures rests { StillRests }
{}

/// What is no dust heeds of levels only which dust beside it, or beside a conductor that is beside it,
/// has power; so on a still map all rests but what reads a cell that was rebuilt, heeds a part that was
/// turned, or heeds dust that gained or lost all power.
pub fn parts_heed_power()
    ensures power { PartsReadPower }
    ensures others { OthersRest }
    ensures dust { DustRests }
{}

/// A table that mirrors what dust stores agrees where nothing near was rebuilt or turned, and is such
/// a table again after the tick whose levels it has.
pub fn tables_mirror_cells()
    ensures agree { MirrorsAgree }
    ensures ticks { TicksMirror }
{}

/// A table that mirrors a map is one of it after writes, and one with its levels and links is one of
/// it after the tick.
pub fn tables_stay_mirrors()
    ensures writes { WritesKeepMirror }
    ensures ticks { TicksLeaveMirror }
{}

/// What is kept of a map between two ticks is right after cells were written, with their places
/// among those that were rebuilt; and so is what a tick leaves, with the levels of the map before it.
pub fn watches_stay()
    ensures writes { WritesKeepWatch }
    ensures ticks { TicksLeaveWatch }
{}
