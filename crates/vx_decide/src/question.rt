ghost use Rattle.std.specs.Prelude.{◌≡◌};
ghost use Rattle.vx_decide.specs.Query.{flag_of_question};

use vx_flag::Flag;

/// What the regions at a place are asked: on a flag of its own, or on building, where membership
/// counts too.
#[derive(Clone, Copy, Debug, PartialEq, Eq)]
pub enum Question {
    OnFlag(Flag),
    OnBuilding,
}

impl Question {
    /// The flag whose value is asked for.
    pub fn flag(self) -> Flag
        ensures { result ≡ flag_of_question self }
    {
        match self {
            Question::OnFlag(flag) => flag,
            Question::OnBuilding => Flag::Build,
        }
    }
}
