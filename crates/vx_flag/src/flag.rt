ghost use Rattle.std.specs.Prelude.{◌≡◌, ◌<◌, length, IfSome, Some};
ghost use Rattle.vx_flag.specs.Flag.{flag_text, flags, flag_index, flag_of};

use std::fmt;

/// What a region can allow or deny. How a flag decides on an action is in docs/RULES.md.
#[derive(Clone, Copy, Debug, PartialEq, Eq)]
pub enum Flag {
    /// Decides on each action whose own flag is not set.
    Build,
    BlockBreak,
    BlockPlace,
    /// Turning levers. Its text is `use`.
    Usage,
    /// Reaching into chests.
    ChestAccess,
    /// A region that allows it, and does not set `Build`, has no say about building.
    Passthrough,
    /// The moves of pistons.
    Pistons,
}

/// How many flags there are.
pub(crate) const FLAGS: usize = 7;

impl Flag {
    /// Every flag, each at its own place.
    pub const ALL: [Flag; FLAGS] = [
        Flag::Build,
        Flag::BlockBreak,
        Flag::BlockPlace,
        Flag::Usage,
        Flag::ChestAccess,
        Flag::Passthrough,
        Flag::Pistons,
    ];

    /// The place of this flag among all.
    pub(crate) fn index(self) -> usize
        ensures value { result ≡ flag_index self }
        ensures within { result < length flags }
    {
        self as usize
    }

    /// The text of this flag (docs/FORMATS.md).
    pub fn text(self) -> &'static str
        ensures { result.now ≡ flag_text self }
    {
        match self {
            Flag::Build => "build",
            Flag::BlockBreak => "block-break",
            Flag::BlockPlace => "block-place",
            Flag::Usage => "use",
            Flag::ChestAccess => "chest-access",
            Flag::Passthrough => "passthrough",
            Flag::Pistons => "pistons",
        }
    }

    /// The flag that has this text, letter for letter.
    #[tactic(auto, unfolding(crate::specs::Flag::flag_of))]
    pub fn read(text: &str) -> Option<Flag>
        ensures found { IfSome result (λ f. flag_text f ≡ text.now) }
        ensures only { (f : Flag) → flag_text f ≡ text.now → result ≡ Some f }
        ensures named { result ≡ flag_of text.now }
    {
        match text {
            "build" => Some(Flag::Build),
            "block-break" => Some(Flag::BlockBreak),
            "block-place" => Some(Flag::BlockPlace),
            "use" => Some(Flag::Usage),
            "chest-access" => Some(Flag::ChestAccess),
            "passthrough" => Some(Flag::Passthrough),
            "pistons" => Some(Flag::Pistons),
            _ => None,
        }
    }
}

impl fmt::Display for Flag {
    ghost output = { λ f. Some (flag_text f) };

    fn fmt<W: fmt::Write>(&self, f: &mut fmt::Formatter<W>) -> fmt::Result {
        f.pad(self.text())
    }
}
