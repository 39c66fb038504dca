ghost use Rattle.std.specs.Prelude.{◌≡◌, Some};
ghost use Rattle.vx_policy.specs.Texts.{edit_refusal_text};

use std::error::Error;
use std::fmt;

/// Why an edit was refused. Each cause has a number; docs/FORMATS.md has the table, and
/// docs/RULES.md what each means.
#[derive(Clone, Copy, Debug, PartialEq, Eq)]
pub enum EditRefusal {
    /// A text spells no id.
    BadId,
    /// There is a region of that id already.
    Known,
    /// There is no region of that id.
    Unknown,
    /// The region is the parent of another.
    HasChildren,
    /// The region would be an ancestor of itself.
    Cycle,
    /// The points or the heights make no shape.
    BadShape,
    /// A text spells no name.
    BadName,
    /// The world at large has flags, and nothing else.
    GlobalHasNone,
    /// There are as many regions as there may be, or the last number was given.
    TooManyRegions,
}

impl EditRefusal {
    // Its number and its words.
    fn text(self) -> &'static str
        ensures { result.now ≡ edit_refusal_text self }
    {
        match self {
            EditRefusal::BadId => "refused 20 bad id",
            EditRefusal::Known => "refused 21 known",
            EditRefusal::Unknown => "refused 22 unknown",
            EditRefusal::HasChildren => "refused 23 has children",
            EditRefusal::Cycle => "refused 24 cycle",
            EditRefusal::BadShape => "refused 25 bad shape",
            EditRefusal::BadName => "refused 26 bad name",
            EditRefusal::GlobalHasNone => "refused 27 global has none",
            EditRefusal::TooManyRegions => "refused 28 too many regions",
        }
    }
}

impl fmt::Display for EditRefusal {
    ghost output = { λ refusal. Some (edit_refusal_text refusal) };

    fn fmt<W: fmt::Write>(&self, f: &mut fmt::Formatter<W>) -> fmt::Result {
        f.write_str(self.text())
    }
}

impl Error for EditRefusal {}
