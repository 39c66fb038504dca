ghost use Rattle.std.specs.Prelude.{◌≡◌, []};

use crate::fate::Fate;
use std::alloc::Global;
use vx_block::Cell;
use vx_geom::Pos;

/// What a tick does to a map: told, and not done yet.
#[derive(Drop)]
pub struct Plan {
    /// The cells that it puts down, one after another: what components become, and then what the
    /// moves that are made put down. No chest is among them.
    pub puts: Vec<(Pos, Cell)>,
    /// The fates of the moves, each beside the position of its piston, in the order of positions.
    pub fates: Vec<(Pos, Fate)>,
}

impl Plan {
    /// A tick that does nothing. It takes no memory.
    pub fn nothing(alloc: Global) -> Plan
        ensures puts { result.puts.items ≡ [] }
        ensures fates { result.fates.items ≡ [] }
    {
        Plan {
            puts: Vec::new(alloc),
            fates: Vec::new(alloc),
        }
    }
}
