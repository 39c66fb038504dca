ghost use Rattle.vx_power.specs.Local.{DustSees, PowerSees, ActivitySees, DustSeesShown, PowerSeesShown, ActivitySeesShown, LevelsAreLocal};
ghost use Rattle.vx_power.specs.Turning.{LinksSeeBuilt, FeedingSeesTurned, ActivityHeeds};
ghost use Rattle.vx_power.specs.Laws.{LevelsAreWalks, LevelsFallByOne, LinksLeadBack, PointsToAll, PointsAlong, PointsToJoins};

/// The level of dust is 15 less the length of the shortest walk of links to fed dust, or 0; it
/// falls by at most one with each link.
pub fn levels_are_walks()
    ensures walks { LevelsAreWalks }
    ensures falls { LevelsFallByOne }
{}

/// Dust that links to other dust is linked to by it.
pub fn links_lead_back()
    ensures { LinksLeadBack }
{}

/// Dust points to all sides where it joins nothing, to both ends of an axis where it joins
/// something on that axis alone, and else to what it joins.
pub fn dust_points_as_it_joins()
    ensures all { PointsToAll }
    ensures along { PointsAlong }
    ensures joins { PointsToJoins }
{}

/// What dust links to and whether it is fed is decided within two steps of it, power at a position
/// within three, and what is active there within four; each reads levels two steps nearer.
pub fn signals_see_few_steps()
    ensures dust { DustSees }
    ensures power { PowerSees }
    ensures activity { ActivitySees }
{}

/// The level of dust is decided within 16 columns of it.
pub fn levels_are_local()
    ensures { LevelsAreLocal }
{}

/// Of the cells that they see, signals depend only on what each shows: neither on the level that
/// dust stores, nor on the state of a lamp, nor on what a repeater counts.
pub fn signals_see_what_is_shown()
    ensures dust { DustSeesShown }
    ensures power { PowerSeesShown }
    ensures activity { ActivitySeesShown }
{}

/// Where only torches, levers and repeaters were turned on or off, dust links to what it linked to;
/// it is fed as before unless one of them would feed it, were it on; and what is active heeds those
/// alone that are beside it, or beside a conductor that is beside it, as it does dust that gained or
/// lost all power.
pub fn signals_heed_what_was_turned()
    ensures links { LinksSeeBuilt }
    ensures feeding { FeedingSeesTurned }
    ensures activity { ActivityHeeds }
{}
