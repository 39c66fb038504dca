//! What becomes of the moves of a tick, by several threads.
ghost use Rattle.std.specs.Prelude.{◌≡◌, map, IfOk};
ghost use Rattle.std.specs.List.{flat_map};
ghost use Rattle.vx_cause.specs.Judging.{denial};
ghost use Rattle.vx_tick.specs.Fates.{AreFates};

use crate::fates_work::FatesWork;
use crate::gate::Gate;
use crate::workers::Workers;
use std::alloc::{AllocError, Global};
use std::thread::Threads;
use vx_decide::{Decide, Rule};
use vx_geom::{Bounds, Pos};
use vx_piston::Move;
use vx_policy::Version;
use vx_tick::{Fate, Phase, denials, fates_by};

/// What becomes of these moves, each beside the position of its piston, in their order. Where there
/// are several threads, what denies them is told in as many parts as a world of this size has
/// sectors.
pub fn fates_in_parts<R: Threads + Sync, G: Gate + Sync>(
    workers: &Workers<'_, R, G>,
    alloc: Global,
    bounds: Bounds,
    version: &Version,
    moves: &[Move],
) -> Result<Vec<(Pos, Fate)>, AllocError>
    ensures { IfOk result (λ fates.
        AreFates version.now.policy moves.now moves.now fates.items) }
{
    let denials = denials_by(workers, alloc, bounds, &version.policy, moves)?;
    fates_by(alloc, moves, denials.as_slice())
}

// What denies each of the moves, if anything does.
fn denials_by<R: Threads + Sync, D: Decide + Sync, G: Gate + Sync>(
    workers: &Workers<'_, R, G>,
    alloc: Global,
    bounds: Bounds,
    policy: &D,
    moves: &[Move],
) -> Result<Vec<Option<(Pos, Rule)>>, AllocError>
    ensures { IfOk result (λ denials.
        denials.items ≡ map (denial (D.policy policy.now)) moves.now) }
{
    if workers.is_one() {
        workers.begin(bounds.sectors(), Phase::Fates);
        return denials(alloc, policy, moves);
    }
    bounds.soundness();
    let work = FatesWork {
        policy,
        moves,
        sectors: bounds.sectors(),
    };
    let pieces = workers.all(alloc, &work)?;
    joined(alloc, pieces)
}

// All of these one after another.
fn joined<T: Drop>(alloc: Global, pieces: Vec<Vec<T>>) -> Result<Vec<T>, AllocError>
    ensures { IfOk result (λ all. all.items ≡ flat_map (λ piece. piece.items) pieces.items) }
{
    let mut all = Vec::new(alloc);
    for mut piece in pieces {
        all.append(&mut piece)?;
    }
    Ok(all)
}
