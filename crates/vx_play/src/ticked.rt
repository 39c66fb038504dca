use vx_geom::Pos;
use vx_sector::Entry;
use vx_tick::Fate;

/// What a tick closed and did: the record of each sector's window, in the order of the sectors, and
/// the fates of the moves that pistons asked for, each beside the position of its piston, in the
/// order of positions.
#[derive(Drop)]
pub struct Ticked {
    pub windows: Vec<Vec<Entry>>,
    pub fates: Vec<(Pos, Fate)>,
}
