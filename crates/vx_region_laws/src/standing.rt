ghost use Rattle.vx_region_laws.specs.Standing.{PlayersStand, MachinesStand};

/// What a player is to a region the names say, of the region and of its ancestors: an owner exactly
/// where one of them names it as owner, else a member exactly where one names it as member, else a
/// stranger. A machine is an owner exactly of the regions that contain its place themselves, and of
/// those that have a domain in common with such a region, by what they and their ancestors list; it
/// is a stranger to all others. No owner and no member plays a part in that.
pub fn owners_are_named_or_stand_there()
    ensures players { PlayersStand }
    ensures machines { MachinesStand }
{}
