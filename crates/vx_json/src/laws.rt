ghost use Rattle.vx_json.specs.Laws.{CallsAreObjects, FatesAreObjects, WordsReadBack};

/// What stands in the lines of a record are objects of JSON, written as `serde_json` writes them.
pub fn lines_are_objects()
    ensures calls { CallsAreObjects }
    ensures fates { FatesAreObjects }
{}

/// The words of a command, behind `as` and the name of its player, are a line of a script, which
/// says this command of this player.
pub fn words_read_back()
    ensures { WordsReadBack }
{}
