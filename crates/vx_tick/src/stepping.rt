//! A tick over the whole map, on one thread.
ghost use Rattle.std.specs.Prelude.{◌≡◌, length, IfOk};
ghost use Rattle.vx_cells.specs.Maps.{cell_on};
ghost use Rattle.vx_cells.specs.Wholes.{with_cells_on};
ghost use Rattle.vx_tick.specs.Ticks.{put_down, fates_on, stepped};

use crate::effects::put_down;
use crate::fate::Fate;
use crate::planning::plan;
use std::alloc::{AllocError, Global};
use vx_cells::Whole;
use vx_geom::Pos;
use vx_piston::Move;
use vx_policy::Version;

/// The map after a tick that this version of the policy judges, and what became of the moves that
/// pistons asked for, each beside the position of its piston, in the order of positions
/// (docs/RULES.md). The map as it was stays.
pub fn step_plain(
    alloc: Global,
    map: &Whole,
    version: &Version,
) -> Result<(Whole, Vec<(Pos, Fate)>), AllocError>
    ensures map { IfOk result (λ after. after.0 ≡ stepped version.now.policy map.now) }
    ensures fates { IfOk result (λ after. after.1.items ≡ fates_on version.now.policy map.now) }
{
    step_owned(alloc, map.try_clone()?, version)
}

/// The map after a tick and the fates of its moves, as `step_plain` gives them, of a map that is
/// handed over: it becomes the next one.
pub fn step_owned(
    alloc: Global,
    map: Whole,
    version: &Version,
) -> Result<(Whole, Vec<(Pos, Fate)>), AllocError>
    ensures map { IfOk result (λ after. after.0 ≡ stepped version.now.policy map) }
    ensures fates { IfOk result (λ after. after.1.items ≡ fates_on version.now.policy map) }
{
    let told = plan(alloc, &map.frozen(), version)?;
    let mut next = map;
    next.set_all(told.puts.as_slice())?;
    Ok((next, told.fates))
}

/// A map on which each component has become its next part, after the moves with these fates: what
/// they put down is told by the map before any of it is put down.
pub fn moved(
    alloc: Global,
    map: Whole,
    moves: &[Move],
    fates: &[(Pos, Fate)],
) -> Result<Whole, AllocError>
    requires each { length fates.now ≡ length moves.now }
    ensures { IfOk result (λ after.
        after ≡ with_cells_on map (put_down (cell_on map) moves.now fates.now)) }
{
    let cells = put_down(alloc, &map.frozen(), moves, fates)?;
    let mut after = map;
    after.set_all(cells.as_slice())?;
    Ok(after)
}
