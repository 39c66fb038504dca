use crate::closed_windows::ClosedWindows;
use vx_geom::Pos;
use vx_policy::Version;
use vx_tick::Fate;

/// A tick on record.
#[derive(Drop)]
pub struct Tick {
    /// Its number, from 1 on.
    pub number: u64,
    /// The version of the policy that judged its machines, and the commands before it.
    pub version: Version,
    /// The record of each sector's window, in order of the sectors.
    pub windows: ClosedWindows,
    /// What became of the moves that pistons asked for, each beside the position of its piston, in
    /// the order of positions.
    pub fates: Vec<(Pos, Fate)>,
}
