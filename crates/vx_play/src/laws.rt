ghost use Rattle.vx_play.specs.Laws.{WorldsBeginWhole, CommandsKeepWorlds, TicksKeepWorlds, GamesStayWhole, OutOfWorldIsOutside, TicksAreSteps, NoEditCountsBeforeATick, EditsCountFromTheNextTick, StepsAreCounted, DeniedByTheOpening, DeniedByTheLastTick, RecordsAreWindows, FirstWindowsBeginWithTheTerrain, WindowsBeginWithTheTick, GamesStayFilled, GamesStayPaired};

/// A world has each sector in its place: as it is made, after each command and after each tick, and
/// so in every game.
pub fn worlds_stay_whole()
    ensures begun { WorldsBeginWhole }
    ensures answered { CommandsKeepWorlds }
    ensures ticked { TicksKeepWorlds }
    ensures game { GamesStayWhole }
{}

/// A command is out of the world exactly where its position is outside.
pub fn out_of_world_is_outside()
    ensures { OutOfWorldIsOutside }
{}

/// A tick makes of the world what the rules of ticks make of its map: each component becomes its
/// next part, and the pistons' moves have the fates that are told, by the version of the policy
/// that judged the commands of the window before.
pub fn ticks_are_steps()
    ensures { TicksAreSteps }
{}

/// An edit counts from the next tick on, and not before. In every game each sector judges its
/// commands, and the next tick the machines, by the policy after exactly the edits that were
/// accepted before the last tick; where there was no tick yet, by the policy of the opening.
pub fn edits_count_from_the_next_tick()
    ensures none { NoEditCountsBeforeATick }
    ensures next { EditsCountFromTheNextTick }
    ensures counted { StepsAreCounted }
{}

/// In every game a command is denied exactly where the policy after the edits that were accepted
/// before the last tick denies its action, and by that rule; an edit that was accepted since then
/// denies and permits nothing yet. A command that no sector answers, or none with room in its
/// record, is refused for that.
pub fn denied_by_the_last_tick()
    ensures first { DeniedByTheOpening }
    ensures next { DeniedByTheLastTick }
{}

/// In every game the record of each sector is a window: each answer is the one that the rules give
/// on the cells that the entries before it leave, from the cells with which the window began, which
/// are those that the last tick made, or those of the terrain.
pub fn records_are_windows()
    ensures windows { RecordsAreWindows }
    ensures first { FirstWindowsBeginWithTheTerrain }
    ensures next { WindowsBeginWithTheTick }
{}

/// In every game something stands at each place, and each piston that is out has its head before it
/// and each head its piston behind it, after commands, edits and ticks, where that is so of the
/// terrain on which the world opens.
pub fn heads_stay_with_pistons()
    ensures filled { GamesStayFilled }
    ensures paired { GamesStayPaired }
{}
