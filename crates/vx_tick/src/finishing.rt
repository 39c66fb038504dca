//! What a tick does once it is known what it found and what becomes of the moves.
ghost use Rattle.std.specs.Prelude.{◌≡◌, ◌++◌, [], Some, length, IfOk, IfSome};
ghost use Rattle.vx_cells.specs.Maps.{cell_on};
ghost use Rattle.vx_geom.specs.Sizes.{sector_count};
ghost use Rattle.vx_power.specs.Levels.{AreAllLevels};
ghost use Rattle.vx_region.specs.Regions.{Regions};
ghost use Rattle.vx_still.specs.Unheeded.{IsKept};
ghost use Rattle.vx_still.specs.Waking.{nowhere};
ghost use Rattle.vx_still.specs.Watching.{IsWatch};
ghost use Rattle.vx_tick.specs.Fates.{AreFates};
ghost use Rattle.vx_tick.specs.Leaving.{IsEnded, IsPlanned, IsWorked};
ghost use Rattle.vx_tick.specs.Pieces.{restless_up_to};
ghost use Rattle.vx_tick.specs.Ticks.{changed_up_to, AreMoves};

use crate::effects::put_down;
use crate::fate::Fate;
use crate::found::Found;
use crate::leaving::left;
use crate::next_parts::NextParts;
use crate::planned::Plan;
use crate::worked::Worked;
use std::alloc::{AllocError, Global};
use vx_block::Cell;
use vx_cells::Frozen;
use vx_geom::Pos;
use vx_piston::Move;
use vx_policy::Version;
use vx_power::Leveled;
use vx_still::{KeptDust, Waking, Watch};

/// What a tick does that this version judges, of a map of which nothing is told: nothing. These
/// levels are kept.
pub fn undisturbed(
    alloc: Global,
    map: &Frozen<'_>,
    version: &Version,
    dust: KeptDust,
) -> Result<(Plan, Watch), AllocError>
    requires { IsWatch map.now
        (record { waking = nowhere; dust = Some dust }) }
    ensures { IfOk result (λ done. IsPlanned version.now.policy map.now done) }
{
    map.filling();
    let _by_any = version;
    let watch = Watch {
        waking: Waking::nothing(alloc),
        dust: Some(dust),
        calm: 0,
    };
    Ok((Plan::nothing(alloc), watch))
}

/// What a tick did that this version judged, with what is kept of the map after it: these levels,
/// if any, which are those of the map before it, and for how many ticks on end little has changed.
pub fn kept(
    map: &Frozen<'_>,
    version: &Version,
    done: (Plan, Waking),
    dust: Option<KeptDust>,
    calm: u32,
) -> (Plan, Watch)
    requires ended { IsEnded version.now.policy map.now done }
    requires dust { IfSome dust (IsKept map.now) }
    ensures { IsPlanned version.now.policy map.now result }
{
    map.soundness();
    let _judge = version;
    let (plan, waking) = done;
    (plan, Watch { waking, dust, calm })
}

/// What a tick does that this version judges and that found this by the levels of all dust, with
/// these fates of the moves, and what it leaves to be looked at.
pub fn finished<L: Leveled>(
    alloc: Global,
    map: &Frozen<'_>,
    version: &Version,
    levels: &L,
    found: Found,
    fates: Vec<(Pos, Fate)>,
) -> Result<(Plan, Waking), AllocError>
    requires levels { AreAllLevels map.now (L.level levels.now) }
    requires changes { found.changes.items ≡ changed_up_to map.now (sector_count map.now.sizes) }
    requires restless { found.restless.items
        ≡ restless_up_to map.now (sector_count map.now.sizes) }
    requires moves { AreMoves map.now found.moves.items }
    requires fates { AreFates version.now.policy found.moves.items found.moves.items fates.items }
    ensures { IfOk result (λ done. IsEnded version.now.policy map.now done) }
{
    map.soundness();
    map.filling();
    let _judge = version;
    let Found {
        changes,
        restless,
        moves,
    } = found;
    let done = worked(alloc, map, levels, changes, moves.as_slice(), fates)?;
    let waking = left(alloc, map, &done.changes, &done.moved, restless.as_slice())?;
    Ok((planned(done)?, waking))
}

/// What a tick does that found these changes, where these moves are asked for and have these fates.
pub fn worked<L: Leveled>(
    alloc: Global,
    map: &Frozen<'_>,
    levels: &L,
    changes: Vec<(Pos, Cell)>,
    moves: &[Move],
    fates: Vec<(Pos, Fate)>,
) -> Result<Worked, AllocError>
    requires levels { AreAllLevels map.now (L.level levels.now) }
    requires changes { changes.items ≡ changed_up_to map.now (sector_count map.now.sizes) }
    requires moves { AreMoves map.now moves.now }
    requires each { length fates.items ≡ length moves.now }
    ensures { IfOk result (λ done. (rs : Regions)
        → AreFates rs moves.now moves.now fates.items
        → IsWorked rs map.now done.changes.items done.moved.items done.fates.items) }
{
    map.filling();
    let next = NextParts { map, levels };
    let moved = put_down(alloc, &next, moves, fates.as_slice())?;
    Ok(Worked {
        changes,
        moved,
        fates,
    })
}

/// What was worked, in one list.
pub fn planned(done: Worked) -> Result<Plan, AllocError>
    ensures puts { IfOk result (λ plan.
        plan.puts.items ≡ done.changes.items ++ done.moved.items) }
    ensures fates { IfOk result (λ plan. plan.fates.items ≡ done.fates.items) }
{
    let Worked {
        changes,
        mut moved,
        fates,
    } = done;
    let mut puts = changes;
    puts.append(&mut moved)?;
    Ok(Plan { puts, fates })
}
