ghost use Rattle.std.specs.Prelude.{◌≡◌, true, None, IfOk, length, map, replicate};
ghost use Rattle.vx_cells.specs.Maps.{AreSectors};
ghost use Rattle.vx_windows.specs.Sectors.{with_changes};
ghost use Rattle.vx_keeper.specs.Keepers.{map_by};
ghost use Rattle.vx_keeper.specs.Readiness.{AreNext, IsReadyAtRest};

use crate::known::Known;
use crate::next_window::NextWindow;
use crate::work::Work;
use std::alloc::{AllocError, Global};
use vx_cells::Cells;
use vx_geom::Pos;
use vx_policy::Version;
use vx_still::Watch;
use vx_tick::Fate;
use vx_windows::{fresh_over, put_in_changes};

/// All that the tick takes of a world in which nothing is recorded since the last one. It is made
/// before the tick, since making it takes memory and closing windows does not.
#[derive(Drop)]
pub struct ReadyAtRest {
    pub(crate) version: Version,
    pub(crate) fates: Vec<(Pos, Fate)>,
    // A copy of the fates, one for the chronicle and one for whoever asks for the tick.
    pub(crate) told: Vec<(Pos, Fate)>,
    pub(crate) watch: Watch,
    // For each sector its cells after the tick; nothing for those that keep theirs, and no list
    // where all do.
    pub(crate) changes: Vec<Option<Cells>>,
    // For those sectors alone whose cells change.
    pub(crate) next: Vec<NextWindow>,
    // Whether the version is by the same policy as the one that judged the windows.
    pub(crate) is_same_policy: bool,
}

impl ReadyAtRest {
    /// What the tick takes that was worked of the world that is known, whose next windows this
    /// version judges. If the tick puts nothing down, no list of sectors is made.
    pub(crate) fn new(
        alloc: Global,
        known: &Known,
        version: Version,
        is_same_policy: bool,
        work: Work,
    ) -> Result<ReadyAtRest, AllocError>
        requires { is_same_policy ≡ true
            → record known.now.version { tick = version.tick } ≡ version }
        ensures { IfOk result (IsReadyAtRest known.now known.now.map work version) }
    {
        if work.plan.puts.is_empty() {
            let Work { plan, watch } = work;
            let told = plan.fates.as_slice().to_vec(alloc)?;
            return Ok(ReadyAtRest {
                version,
                fates: plan.fates,
                told,
                watch,
                changes: Vec::new(alloc),
                next: Vec::new(alloc),
                is_same_policy,
            });
        }
        known.soundness();
        let cells = known.cells(alloc)?;
        let changes = nothing(alloc, cells.len())?;
        ReadyAtRest::over(alloc, known, &cells, changes, version, is_same_policy, work)
    }

    /// What the tick takes that was worked of the world that is known with these changes of its
    /// cells, whose next windows this version judges.
    pub(crate) fn over(
        alloc: Global,
        known: &Known,
        cells: &[&Cells],
        changes: Vec<Option<Cells>>,
        version: Version,
        is_same_policy: bool,
        work: Work,
    ) -> Result<ReadyAtRest, AllocError>
        requires cells { map (λ c. c.now) cells.now ≡ known.now.map.sectors }
        requires each { length changes.items ≡ length known.now.map.sectors }
        requires placed { AreSectors known.now.map.sizes
            (with_changes known.now.map.sectors changes.items) }
        requires same { is_same_policy ≡ true
            → record known.now.version { tick = version.tick } ≡ version }
        ensures ready { IfOk result (IsReadyAtRest known.now (map_by known.now.map.sizes
            (with_changes known.now.map.sectors changes.items)) work version) }
        ensures each { IfOk result (λ ready.
            length ready.changes.items ≡ length known.now.map.sectors) }
    {
        let Work { plan, watch } = work;
        let told = plan.fates.as_slice().to_vec(alloc)?;
        let mut changes = changes;
        put_in_changes(known.bounds(), cells, &mut changes, plan.puts.as_slice())?;
        let next = all_next(alloc, cells, &changes, &version)?;
        Ok(ReadyAtRest {
            version,
            fates: plan.fates,
            told,
            watch,
            changes,
            next,
            is_same_policy,
        })
    }

    /// What the next windows of sectors begin with, for those alone whose cells change.
    pub fn next(&self) -> &[NextWindow]
        ensures { result.now ≡ self.now.next.items }
    {
        &self.next
    }
}

/// Nothing for so many sectors.
pub(crate) fn nothing(alloc: Global, count: usize) -> Result<Vec<Option<Cells>>, AllocError>
    ensures { IfOk result (λ changes. changes.items ≡ replicate count None) }
{
    let mut changes = Vec::with_capacity(alloc, count)?;
    for _ in 0..count {
        changes.push_reserved(None);
    }
    Ok(changes)
}

// What sectors begin their next windows with, for those alone whose cells change.
fn all_next(
    alloc: Global,
    cells: &[&Cells],
    changes: &[Option<Cells>],
    version: &Version,
) -> Result<Vec<NextWindow>, AllocError>
    requires { length changes.now ≡ length cells.now }
    ensures { IfOk result (λ all. AreNext version.now (map (λ c. c.now) cells.now) changes.now
        (length cells.now) all.items) }
{
    let mut all = Vec::new(alloc);
    for number in 0..cells.len() {
        let change = &changes[number];
        if change.is_none() {
            continue;
        }
        let next = fresh_over(alloc, cells[number], change, version, true)?;
        let Some(fresh) = next else {
            continue;
        };
        all.push(NextWindow { number, fresh })?;
    }
    Ok(all)
}
