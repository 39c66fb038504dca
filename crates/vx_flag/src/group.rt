ghost use Rattle.std.specs.Prelude.{◌≡◌, IfSome, Some};
ghost use Rattle.vx_flag.specs.Group.{group_text, group_of, fits};

use crate::association::Association;
use std::fmt;

/// For whom a region sets a flag.
#[derive(Clone, Copy, Debug, PartialEq, Eq)]
pub enum Group {
    All,
    Members,
    Owners,
    Nonmembers,
    Nonowners,
}

impl Group {
    /// The text of this group (docs/FORMATS.md).
    pub fn text(self) -> &'static str
        ensures { result.now ≡ group_text self }
    {
        match self {
            Group::All => "all",
            Group::Members => "members",
            Group::Owners => "owners",
            Group::Nonmembers => "nonmembers",
            Group::Nonowners => "nonowners",
        }
    }

    /// The group that has this text, letter for letter.
    #[tactic(auto, unfolding(crate::specs::Group::group_of))]
    pub fn read(text: &str) -> Option<Group>
        ensures found { IfSome result (λ g. group_text g ≡ text.now) }
        ensures only { (g : Group) → group_text g ≡ text.now → result ≡ Some g }
        ensures named { result ≡ group_of text.now }
    {
        match text {
            "all" => Some(Group::All),
            "members" => Some(Group::Members),
            "owners" => Some(Group::Owners),
            "nonmembers" => Some(Group::Nonmembers),
            "nonowners" => Some(Group::Nonowners),
            _ => None,
        }
    }
}

impl fmt::Display for Group {
    ghost output = { λ g. Some (group_text g) };

    fn fmt<W: fmt::Write>(&self, f: &mut fmt::Formatter<W>) -> fmt::Result {
        f.pad(self.text())
    }
}

/// Whether a subject of this association belongs to the group.
pub fn fits(group: Group, association: Association) -> bool
    ensures { result ≡ fits group association }
{
    match group {
        Group::All => true,
        Group::Members => matches!(association, Association::Owner | Association::Member),
        Group::Owners => matches!(association, Association::Owner),
        Group::Nonmembers => matches!(association, Association::Stranger),
        Group::Nonowners => matches!(association, Association::Member | Association::Stranger),
    }
}
