//! A tick of a map that is only read, on several threads.
ghost use Rattle.std.specs.Prelude.{◌≡◌, ◌<◌, ◌≤◌, false, IfOk, IfSome};
ghost use Rattle.std.specs.List.{All};
ghost use Rattle.vx_step.specs.declared.workers.TheConstants.{MAX_WORKERS};
ghost use Rattle.vx_store.specs.Codes.{is_chest};
ghost use Rattle.vx_cells.specs.Wholes.{with_cells_on};
ghost use Rattle.vx_geom.specs.Sizes.{sector_count};
ghost use Rattle.vx_power.specs.Levels.{AreAllLevels};
ghost use Rattle.vx_still.specs.Watching.{with_written, IsWatch};
ghost use Rattle.vx_tick.specs.Leaving.{IsEnded, IsPlanned};
ghost use Rattle.vx_tick.specs.Pieces.{restless_up_to, RestsOutside};
ghost use Rattle.vx_tick.specs.Starting.{IsStart};
ghost use Rattle.vx_tick.specs.Ticks.{changed_up_to, fates_on, stepped, AreMoves};

use crate::ending_parts::fates_in_parts;
use crate::gate::Gate;
use crate::parts_work::PartsWork;
use crate::workers::Workers;
use std::alloc::{AllocError, Global};
use std::thread::Threads;
use vx_cells::Frozen;
use vx_geom::Pos;
use vx_places::Places;
use vx_policy::Version;
use vx_power::Leveled;
use vx_still::{Waking, Watch};
use vx_tick::{Found, Phase, Plan, Start, finished, kept, undisturbed};

// A further thread pays where it has so many components to look at, or so many moves to judge.
const COMPONENTS_EACH: usize = 2_048;

const MOVES_EACH: usize = 64;

/// What `plan_by` tells, the sectors worked by 1 to 8 threads, as `step_parts` shares them out.
/// Where nothing is told, no sector is worked, and where little is, one thread does all, since
/// others would cost more than they save. The phase of cells has no piece here, since nothing is
/// copied.
pub fn plan_parts<R: Threads + Sync, G: Gate + Sync>(
    rt: &R,
    alloc: Global,
    map: &Frozen<'_>,
    version: &Version,
    watch: Option<Watch>,
    written: &[Pos],
    workers: usize,
    gate: &G,
) -> Result<(Plan, Watch), AllocError>
    requires watch { IfSome watch (λ watch. IsWatch map.now (with_written watch written.now)) }
    requires workers { (0 < workers) × (workers ≤ MAX_WORKERS) }
    ensures puts { IfOk result (λ done.
        stepped version.now.policy map.now ≡ with_cells_on map.now done.0.puts.items) }
    ensures fates { IfOk result (λ done.
        done.0.fates.items ≡ fates_on version.now.policy map.now) }
    ensures chests { IfOk result (λ done.
        All (λ put. is_chest put.1 ≡ false) done.0.puts.items) }
    ensures watch { IfOk result (λ done.
        IsWatch (stepped version.now.policy map.now) done.1) }
{
    let start = Start::of(alloc, map, watch, written)?;
    started(&Workers::new(rt, workers, gate), alloc, map, version, start)
}

// The plan of a tick that starts so, worked by these workers, and what is kept for the next one, as
// one fact.
fn started<R: Threads + Sync, G: Gate + Sync>(
    workers: &Workers<'_, R, G>,
    alloc: Global,
    map: &Frozen<'_>,
    version: &Version,
    start: Start,
) -> Result<(Plan, Watch), AllocError>
    requires { IsStart map.now start }
    ensures { IfOk result (λ done. IsPlanned version.now.policy map.now done) }
{
    match start {
        Start::AtRest(dust) => undisturbed(alloc, map, version, dust),
        Start::Awake(dust, places) => {
            let done = by_levels(workers, alloc, map, version, &dust.levels, places.as_ref())?;
            Ok(kept(map, version, done, Some(dust), 0))
        }
        Start::Anew(levels, calm) => {
            let done = by_levels(workers, alloc, map, version, &levels, None)?;
            Ok(kept(map, version, done, None, calm))
        }
    }
}

// What a tick does by the levels of all dust: at the places outside which the map rests, where
// these are told, and else at all components.
fn by_levels<R: Threads + Sync, G: Gate + Sync, L: Leveled + Sync>(
    workers: &Workers<'_, R, G>,
    alloc: Global,
    map: &Frozen<'_>,
    version: &Version,
    levels: &L,
    places: Option<&Places>,
) -> Result<(Plan, Waking), AllocError>
    requires levels { AreAllLevels map.now (L.level levels.now) }
    requires rests { IfSome places (λ places. RestsOutside map.now places.now) }
    ensures { IfOk result (λ done. IsEnded version.now.policy map.now done) }
{
    let found = found(workers, alloc, map, levels, places)?;
    let moves = found.moves.as_slice();
    let judging = workers.at_most(1 + moves.len() / MOVES_EACH);
    let fates = fates_in_parts(&judging, alloc, map.bounds(), version, moves)?;
    finished(alloc, map, version, levels, found, fates)
}

// What a tick finds on a map, by the levels of all its dust: at the places outside which the map
// rests, where these are told, and else at all components.
fn found<R: Threads + Sync, G: Gate + Sync, L: Leveled + Sync>(
    workers: &Workers<'_, R, G>,
    alloc: Global,
    map: &Frozen<'_>,
    levels: &L,
    places: Option<&Places>,
) -> Result<Found, AllocError>
    requires levels { AreAllLevels map.now (L.level levels.now) }
    requires rests { IfSome places (λ places. RestsOutside map.now places.now) }
    ensures changes { IfOk result (λ found.
        found.changes.items ≡ changed_up_to map.now (sector_count map.now.sizes)) }
    ensures restless { IfOk result (λ found.
        found.restless.items ≡ restless_up_to map.now (sector_count map.now.sizes)) }
    ensures moves { IfOk result (λ found. AreMoves map.now found.moves.items) }
{
    let looking = workers.at_most(lookers(map, places));
    if looking.is_one() {
        looking.begin(map.bounds().sectors(), Phase::Parts);
        return Found::at(alloc, map, levels, places);
    }
    let work = PartsWork::new(map, levels, places);
    let pieces = looking.all(alloc, &work)?;
    Found::joined(alloc, pieces)
}

// How many threads pay to look at these places, or at all components.
fn lookers(map: &Frozen<'_>, places: Option<&Places>) -> usize {
    match places {
        Some(_) => 1,
        None => 1 + map.component_count() as usize / COMPONENTS_EACH,
    }
}
