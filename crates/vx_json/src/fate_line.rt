ghost use Rattle.std.specs.Prelude.{Some};

use crate::place::Place;
use std::fmt;
use vx_tick::Fate;

/// What became of the move of a piston, as replies show it.
#[derive(Clone, Copy, Debug)]
pub struct FateLine {
    pub piston: Place,
    pub fate: Fate,
}

impl fmt::Display for FateLine {
    ghost use Rattle.vx_json.specs.Texts.{fate_text};

    ghost output = { λ line. Some (fate_text line.piston.pos line.fate) };

    fn fmt<W: fmt::Write>(&self, f: &mut fmt::Formatter<W>) -> fmt::Result {
        let piston = self.piston;
        match self.fate {
            Fate::Moved => write!(f, "moved {piston}"),
            Fate::Denied(pos, rule) => {
                let cell = Place { pos };
                write!(f, "denied {piston} at {cell} {rule}")
            }
            Fate::Beaten(pos) => {
                let by = Place { pos };
                write!(f, "beaten {piston} by {by}")
            }
        }
    }
}
