//! A tick of a map that is only read.
ghost use Rattle.std.specs.Prelude.{◌≡◌, false, IfOk, IfSome};
ghost use Rattle.std.specs.List.{All};
ghost use Rattle.vx_store.specs.Codes.{is_chest};
ghost use Rattle.vx_cells.specs.Wholes.{with_cells_on};
ghost use Rattle.vx_power.specs.Levels.{AreAllLevels};
ghost use Rattle.vx_still.specs.Watching.{with_written, IsWatch};
ghost use Rattle.vx_tick.specs.Leaving.{IsEnded, IsPlanned};
ghost use Rattle.vx_tick.specs.Pieces.{RestsOutside};
ghost use Rattle.vx_tick.specs.Starting.{IsStart};
ghost use Rattle.vx_tick.specs.Ticks.{fates_on, stepped};

use crate::ending::fates_under;
use crate::finishing::{finished, kept, planned, undisturbed, worked};
use crate::found::Found;
use crate::planned::Plan;
use crate::start::Start;
use std::alloc::{AllocError, Global};
use vx_cells::Frozen;
use vx_geom::Pos;
use vx_places::Places;
use vx_policy::Version;
use vx_power::{Leveled, all_levels};
use vx_still::{Waking, Watch};

/// What a tick of this map does that this version of the policy judges (docs/RULES.md). Nothing of
/// the map is copied. It costs what the components of the map are, and the dust that has power.
pub fn plan(alloc: Global, map: &Frozen<'_>, version: &Version) -> Result<Plan, AllocError>
    ensures puts { IfOk result (λ plan.
        stepped version.now.policy map.now ≡ with_cells_on map.now plan.puts.items) }
    ensures fates { IfOk result (λ plan. plan.fates.items ≡ fates_on version.now.policy map.now) }
    ensures chests { IfOk result (λ plan. All (λ put. is_chest put.1 ≡ false) plan.puts.items) }
{
    let levels = all_levels(alloc, map)?;
    let Found { changes, moves, .. } = Found::on(alloc, map, &levels)?;
    let fates = fates_under(alloc, version, moves.as_slice())?;
    let done = worked(alloc, map, &levels, changes, moves.as_slice(), fates)?;
    planned(done)
}

/// What a tick of this map does that this version of the policy judges, and what is kept of the map
/// for the tick after it. It goes by what was kept of the map before, and by what was written
/// since, and costs what has changed, or no more than a look at all components; where nothing was
/// kept it looks at all of them.
pub fn plan_by(
    alloc: Global,
    map: &Frozen<'_>,
    version: &Version,
    watch: Option<Watch>,
    written: &[Pos],
) -> Result<(Plan, Watch), AllocError>
    requires { IfSome watch (λ watch. IsWatch map.now (with_written watch written.now)) }
    ensures puts { IfOk result (λ done.
        stepped version.now.policy map.now ≡ with_cells_on map.now done.0.puts.items) }
    ensures fates { IfOk result (λ done.
        done.0.fates.items ≡ fates_on version.now.policy map.now) }
    ensures chests { IfOk result (λ done.
        All (λ put. is_chest put.1 ≡ false) done.0.puts.items) }
    ensures watch { IfOk result (λ done.
        IsWatch (stepped version.now.policy map.now) done.1) }
{
    let start = Start::of(alloc, map, watch, written)?;
    started(alloc, map, version, start)
}

// The plan of a tick that starts so, and what is kept for the next one, as one fact.
fn started(
    alloc: Global,
    map: &Frozen<'_>,
    version: &Version,
    start: Start,
) -> Result<(Plan, Watch), AllocError>
    requires { IsStart map.now start }
    ensures { IfOk result (λ done. IsPlanned version.now.policy map.now done) }
{
    match start {
        Start::AtRest(dust) => undisturbed(alloc, map, version, dust),
        Start::Awake(dust, places) => {
            let done = by_levels(alloc, map, version, &dust.levels, places.as_ref())?;
            Ok(kept(map, version, done, Some(dust), 0))
        }
        Start::Anew(levels, calm) => {
            let done = by_levels(alloc, map, version, &levels, None)?;
            Ok(kept(map, version, done, None, calm))
        }
    }
}

// What a tick does by the levels of all dust: at the places outside which the map rests, where
// these are told, and else at all components.
fn by_levels<L: Leveled>(
    alloc: Global,
    map: &Frozen<'_>,
    version: &Version,
    levels: &L,
    places: Option<&Places>,
) -> Result<(Plan, Waking), AllocError>
    requires levels { AreAllLevels map.now (L.level levels.now) }
    requires rests { IfSome places (λ places. RestsOutside map.now places.now) }
    ensures { IfOk result (λ done. IsEnded version.now.policy map.now done) }
{
    let found = Found::at(alloc, map, levels, places)?;
    let fates = fates_under(alloc, version, found.moves.as_slice())?;
    finished(alloc, map, version, levels, found, fates)
}
