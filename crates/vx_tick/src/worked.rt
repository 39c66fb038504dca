use crate::fate::Fate;
use vx_block::Cell;
use vx_geom::Pos;

/// What a tick does to a map, told in two steps.
#[derive(Drop)]
pub struct Worked {
    /// What components become.
    pub changes: Vec<(Pos, Cell)>,
    /// What the moves that are made put down then.
    pub moved: Vec<(Pos, Cell)>,
    /// The fates of the moves.
    pub fates: Vec<(Pos, Fate)>,
}
