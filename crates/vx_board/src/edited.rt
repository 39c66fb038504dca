ghost use Rattle.std.specs.Prelude.{Some};

use std::fmt;
use vx_region::RegionNo;

/// The answer to an accepted edit.
#[derive(Clone, Copy, Debug, PartialEq, Eq)]
pub struct Edited {
    /// How many edits were accepted since the opening, this one counted.
    pub count: u64,
    /// The number that a definition gave.
    pub region: Option<RegionNo>,
}

impl fmt::Display for Edited {
    ghost use Rattle.vx_board.specs.Texts.{edited_text};

    ghost output = { λ edited. Some (edited_text edited) };

    fn fmt<W: fmt::Write>(&self, f: &mut fmt::Formatter<W>) -> fmt::Result {
        let count = self.count;
        match self.region {
            Some(RegionNo(number)) => write!(f, "edit {count} region {number}"),
            None => write!(f, "edit {count}"),
        }
    }
}
