ghost use Rattle.vx_script.specs.FirstFault.{FaultsAreOfTheScript, FirstFault};
ghost use Rattle.vx_script.specs.Laws.{ScriptFaults, ScriptsHaveLeave, ScriptsWriteOneText};
ghost use Rattle.vx_script.specs.Openings.{SizesAreSound, HeadersKeepTerrain, ScriptsOpenFilled};
ghost use Rattle.vx_script.specs.Played.{ScriptsAreGames};

/// Whether a script faults, and how, its lines alone decide.
pub fn faults_are_of_the_script()
    ensures { FaultsAreOfTheScript }
{}

/// A script faults at its first faulty line, which it has, whatever follows that line, or at its
/// last one, where it ends in a block.
pub fn first_fault()
    ensures { FirstFault }
{}

/// A script has no other fault than too many players and a faulty line.
pub fn script_faults()
    ensures { ScriptFaults }
{}

/// A script without blocks writes one text: what is played and replied follows from its lines.
pub fn scripts_write_one_text()
    ensures { ScriptsWriteOneText }
{}

/// A body without fault plays a game whose steps its lines are, those of a block in some order that
/// keeps that of each player in each sector: what holds of games, holds of scripts.
pub fn scripts_are_games()
    ensures { ScriptsAreGames }
{}

/// What an owner may rely on in all that a script without fault does. Its text tells the replies of
/// a game whose steps are the lines behind the header. In each tick of that game, and behind the
/// last one, what stands at a place, whatever signals it gets, and what a chest there holds changes
/// only by a player's command there that the policy of that tick permits to that player, or by a
/// machine's move all of whose cells it permits to that machine. A command, or a move, is denied
/// exactly where that policy denies it, and by that rule. The text shows the record of the game
/// where that is asked for.
pub fn scripts_have_leave()
    ensures { ScriptsHaveLeave }
{}

/// Whatever a header says, its world has each sector in its place, and something at each place.
pub fn headers_stay_whole()
    ensures sizes { SizesAreSound }
    ensures header { HeadersKeepTerrain }
    ensures script { ScriptsOpenFilled }
{}
