ghost use Rattle.vx_record.specs.Archives.{CountsGoOn, CountsAgreeAgain};
ghost use Rattle.vx_record.specs.Owners.{ChangesHaveLeave, CommandsDeniedByThePolicy, MovesDeniedByThePolicy};

/// Where the counts of the closed entries are those that the sectors have, the counts after the
/// tick that closes their windows are how many entries each sector has, the closed ones and those
/// of its window; and that is what the sectors have in their next windows.
pub fn counts_go_on()
    ensures next { CountsGoOn }
    ensures again { CountsAgreeAgain }
{}

/// What an owner may rely on, in every tick of a run. Each command on record leaves what stands at
/// a place, whatever signals it gets, and what a chest there holds as the commands before it left
/// it, or it is a player's command at that place, and the policy of that tick permits its action
/// there to that player, by the rule that was told. These commands, one after another, are all that
/// changes it before the machines. After them the machines change it only by a move that was made,
/// all of whose cells the policy permits to that machine. A command, and a move, is denied exactly
/// where the policy denies it, and by that rule.
pub fn changes_have_leave()
    ensures changes { ChangesHaveLeave }
    ensures commands { CommandsDeniedByThePolicy }
    ensures moves { MovesDeniedByThePolicy }
{}
