use vx_decide::Rule;
use vx_geom::Pos;

/// What becomes of a piston's move (docs/RULES.md).
#[derive(Clone, Copy, Debug, PartialEq, Eq)]
pub enum Fate {
    /// It is made.
    Moved,
    /// The policy denies the machine this cell, the first of the move that it denies, by this rule.
    Denied(Pos, Rule),
    /// The piston at this position has a cell of it, and comes first of those that have.
    Beaten(Pos),
}
