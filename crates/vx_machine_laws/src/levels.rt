ghost use Rattle.vx_machine_laws.specs.Nearby.{LevelsNearAreThese, AllLevelsServe};

/// Levels are those of the map near a position exactly where each position that so many steps lead
/// to has the level of the map; so whoever has the levels of all dust has those near every
/// position.
pub fn levels_near_are_those_of_the_map()
    ensures near { LevelsNearAreThese }
    ensures all { AllLevelsServe }
{}
