ghost use Rattle.std.specs.Prelude.{◌≡◌, ◌+◌, length, map};
ghost use Rattle.std.specs.List.{between};
ghost use Rattle.vx_cause.specs.Judging.{denial};
ghost use Rattle.vx_step.specs.Shares.{first_of};

use crate::shares::part_of;
use crate::work::Work;
use std::alloc::{AllocError, Global};
use vx_decide::{Decide, Rule};
use vx_geom::Pos;
use vx_piston::Move;
use vx_tick::{Phase, denials};

/// What denies the moves: an even part of them for each sector, wherever their pistons stand.
#[derive(Drop)]
pub struct FatesWork<'a, D> {
    /// What decides.
    pub policy: &'a D,
    /// All the moves, in the order of their pistons' positions.
    pub moves: &'a [Move],
    /// How many sectors there are.
    pub sectors: u32,
}

impl<D: Decide> Work for FatesWork<'_, D> {
    type Out = Vec<Option<(Pos, Rule)>>;

    ghost count = { λ work. work.sectors };

    ghost gives = { λ work sector denials. denials.items
        ≡ map (denial (D.policy work.policy.now))
        (between (first_of (length work.moves.now) work.sectors sector)
        (first_of (length work.moves.now) work.sectors (sector + 1)) work.moves.now) };

    fn sectors(&self) -> u32 {
        self.sectors
    }

    fn phase(&self) -> Phase {
        Phase::Fates
    }

    fn piece(&self, alloc: Global, sector: u32) -> Result<Vec<Option<(Pos, Rule)>>, AllocError> {
        let moves = part_of(self.moves, self.sectors as usize, sector as usize);
        denials(alloc, self.policy, moves)
    }
}
