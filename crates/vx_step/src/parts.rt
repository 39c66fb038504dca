//! A tick over the whole map, on several threads.
ghost use Rattle.std.specs.Prelude.{◌≡◌, ◌<◌, ◌≤◌, map, IfOk};
ghost use Rattle.std.specs.List.{flat_map};
ghost use Rattle.vx_step.specs.declared.workers.TheConstants.{MAX_WORKERS};
ghost use Rattle.vx_geom.specs.Sizes.{sector_count};
ghost use Rattle.vx_cells.specs.Maps.{AreSectors};
ghost use Rattle.vx_step.specs.Shares.{AreFromTo};
ghost use Rattle.vx_tick.specs.Pieces.{changed_in};
ghost use Rattle.vx_tick.specs.Ticks.{advanced, fates_on, stepped, AreMoves, IsTick};

use crate::cells_work::CellsWork;
use crate::ending_parts::fates_in_parts;
use crate::gate::Gate;
use crate::parts_work::PartsWork;
use crate::workers::Workers;
use std::alloc::{AllocError, Global};
use std::thread::Threads;
use vx_block::Cell;
use vx_cells::{Cells, Frozen, Whole};
use vx_geom::{Bounds, Pos};
use vx_piston::Move;
use vx_policy::Version;
use vx_power::all_levels;
use vx_tick::{Fate, Found, moved, sort_moves};

/// The map after a tick and the fates of its moves, as `step_plain` gives them for the map of these
/// sectors, those of a world of this size in order of their numbers. It is worked by 1 to 8
/// threads: each works the sectors that `sectors_of` tells for it. The work of a thread that cannot
/// be had is done all the same.
pub fn step_parts<R: Threads + Sync, G: Gate + Sync>(
    rt: &R,
    alloc: Global,
    bounds: Bounds,
    cells: &[Cells],
    version: &Version,
    workers: usize,
    gate: &G,
) -> Result<(Whole, Vec<(Pos, Fate)>), AllocError>
    requires map { AreSectors bounds cells.now }
    requires workers { (0 < workers) × (workers ≤ MAX_WORKERS) }
    ensures map { IfOk result (λ after. after.0
        ≡ stepped version.now.policy (record { sizes = bounds; sectors = cells.now })) }
    ensures fates { IfOk result (λ after. after.1.items
        ≡ fates_on version.now.policy (record { sizes = bounds; sectors = cells.now })) }
{
    tick(
        &Workers::new(rt, workers, gate),
        alloc,
        bounds,
        cells,
        version,
    )
}

// The map after a tick, and the fates of its moves.
fn tick<R: Threads + Sync, G: Gate + Sync>(
    workers: &Workers<'_, R, G>,
    alloc: Global,
    bounds: Bounds,
    cells: &[Cells],
    version: &Version,
) -> Result<(Whole, Vec<(Pos, Fate)>), AllocError>
    requires map { AreSectors bounds cells.now }
    ensures { IfOk result (λ after. IsTick version.now.policy
        (record { sizes = bounds; sectors = cells.now }) after.0 after.1.items) }
{
    let (changes, moves) = found(workers, alloc, bounds, cells)?;
    let fates = fates_in_parts(workers, alloc, bounds, version, moves.as_slice())?;
    let advanced = advanced(workers, alloc, bounds, cells, changes.as_slice())?;
    let next = moved(alloc, advanced, moves.as_slice(), fates.as_slice())?;
    Ok((next, fates))
}

// What changes in each sector, and all moves that pistons ask for, in the order of the pistons'
// positions.
fn found<R: Threads + Sync, G: Gate + Sync>(
    workers: &Workers<'_, R, G>,
    alloc: Global,
    bounds: Bounds,
    cells: &[Cells],
) -> Result<(Vec<Vec<(Pos, Cell)>>, Vec<Move>), AllocError>
    requires map { AreSectors bounds cells.now }
    ensures changes { IfOk result (λ found. AreFromTo (λ sector changes.
        changes.items ≡ changed_in (record { sizes = bounds; sectors = cells.now }) sector)
        0 (sector_count bounds) found.0.items) }
    ensures moves { IfOk result (λ found.
        AreMoves (record { sizes = bounds; sectors = cells.now }) found.1.items) }
{
    let map = Frozen::new(bounds, cells);
    let levels = all_levels(alloc, &map)?;
    let found = workers.all(alloc, &PartsWork::new(&map, &levels, None))?;
    let (changes, mut moves) = parted(alloc, found)?;
    sort_moves(&mut moves);
    Ok((changes, moves))
}

// What changes in each sector, and all moves one after another.
fn parted(
    alloc: Global,
    found: Vec<Found>,
) -> Result<(Vec<Vec<(Pos, Cell)>>, Vec<Move>), AllocError>
    ensures changes { IfOk result (λ parted.
        parted.0.items ≡ map (λ piece. piece.changes) found.items) }
    ensures moves { IfOk result (λ parted.
        parted.1.items ≡ flat_map (λ piece. piece.moves.items) found.items) }
{
    let mut all_changes = Vec::new(alloc);
    let mut all_moves = Vec::new(alloc);
    for piece in found {
        let Found {
            changes,
            mut moves,
            ..
        } = piece;
        all_changes.push(changes)?;
        all_moves.append(&mut moves)?;
    }
    Ok((all_changes, all_moves))
}

// The map on which each component has become its next part.
fn advanced<R: Threads + Sync, G: Gate + Sync>(
    workers: &Workers<'_, R, G>,
    alloc: Global,
    bounds: Bounds,
    cells: &[Cells],
    changes: &[Vec<(Pos, Cell)>],
) -> Result<Whole, AllocError>
    requires map { AreSectors bounds cells.now }
    requires changes { AreFromTo (λ sector changes.
        changes.items ≡ changed_in (record { sizes = bounds; sectors = cells.now }) sector)
        0 (sector_count bounds) changes.now }
    ensures { IfOk result (λ next.
        next ≡ advanced (record { sizes = bounds; sectors = cells.now })) }
{
    let work = CellsWork::new(cells, changes, bounds.sectors());
    let next = workers.all(alloc, &work)?;
    Ok(Whole::from_parts(bounds, next))
}
