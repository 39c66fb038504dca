ghost use Rattle.std.specs.Prelude.{◌≡◌};

use arrayvec::ArrayVec;
use std::marker::Model;
use vx_geom::{Dir, Pos};

/// A push moves at most so many cells.
pub const MAX_PUSHED: usize = 12;

/// What stands before a piston that pushes is at most so many cells, the end of the row among them.
pub const MAX_ROW: usize = MAX_PUSHED + 1;

/// A move takes at most so many cells: the piston's, and those before it.
pub const MAX_CELLS: usize = MAX_ROW + 1;

/// What a piston would move.
#[derive(Drop)]
pub struct Move {
    /// Where the piston stands.
    pub at: Pos,
    /// Which way it faces.
    pub facing: Dir,
    /// Whether it pushes; else it draws back.
    pub push: bool,
    /// The cells that this takes, in order, the piston's own first.
    pub cells: ArrayVec<Pos, MAX_CELLS>,
}

impl Model for Move {
    ghost use Rattle.vx_piston.specs.Moves.{Moving};

    ghost Value = { Moving };

    ghost view = { λ m.
        record { at = m.at; facing = m.facing; push = m.push; cells = m.cells.items } };
}
