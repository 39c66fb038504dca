/// What a cell does in the way of a piston (docs/RULES.md).
#[derive(Clone, Copy, Debug, PartialEq, Eq)]
pub enum Mobility {
    /// Nothing stands there.
    Empty,
    /// It is pushed, and pulled.
    Moves,
    /// It is destroyed at the end of a pushed row.
    Breaks,
    /// It stops a push.
    Stays,
}
