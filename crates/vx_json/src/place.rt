ghost use Rattle.std.specs.Prelude.{Some};

use std::fmt;
use vx_geom::Pos;

/// A position as replies show it: its x, y and z.
#[derive(Clone, Copy, Debug)]
pub struct Place {
    pub pos: Pos,
}

impl fmt::Display for Place {
    ghost use Rattle.vx_json.specs.Texts.{pos_text};

    ghost output = { λ place. Some (pos_text place.pos) };

    fn fmt<W: fmt::Write>(&self, f: &mut fmt::Formatter<W>) -> fmt::Result {
        let Pos { x, y, z } = self.pos;
        write!(f, "{x} {y} {z}")
    }
}
