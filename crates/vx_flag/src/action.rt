ghost use Rattle.std.specs.Prelude.{◌≡◌};
ghost use Rattle.vx_flag.specs.Action.{flag_of_action};

use crate::flag::Flag;

/// What is asked about a place (docs/RULES.md). Players ask about all but `Pushing`, by the text of
/// the flag.
#[derive(Clone, Copy, Debug, PartialEq, Eq, Hash)]
pub enum Action {
    Placing,
    Breaking,
    /// Turning a lever.
    Turning,
    /// Reaching into a chest.
    Reaching,
    /// A piston's move.
    Pushing,
}

impl Action {
    /// The flag that decides on this action.
    pub fn flag(self) -> Flag
        ensures { result ≡ flag_of_action self }
    {
        match self {
            Action::Placing => Flag::BlockPlace,
            Action::Breaking => Flag::BlockBreak,
            Action::Turning => Flag::Usage,
            Action::Reaching => Flag::ChestAccess,
            Action::Pushing => Flag::Pistons,
        }
    }
}
