ghost use Rattle.std.specs.List.{All};
ghost use Rattle.std.specs.Prelude.{◌≡◌, true, map, IfOk};
ghost use Rattle.vx_cells.specs.Maps.{AreSectors};
ghost use Rattle.vx_windows.specs.Sectors.{cells_of};
ghost use Rattle.vx_keeper.specs.Readiness.{IsReady};

use crate::work::Work;
use std::alloc::{AllocError, Global};
use vx_cells::Cells;
use vx_geom::{Bounds, Pos};
use vx_policy::Version;
use vx_record::{KeptWindow, busy_sectors};
use vx_sector::{Entry, Fresh, Sector};
use vx_still::Watch;
use vx_tick::Fate;
use vx_windows::{all_fresh, cells_after};

/// All that it takes to close the windows of sectors and to begin their next ones. It is made
/// before, since making it takes memory and closing does not.
#[derive(Drop)]
pub struct Ready {
    pub(crate) version: Version,
    pub(crate) fates: Vec<(Pos, Fate)>,
    // A copy of the fates, one for the chronicle and one for whoever asks for the tick.
    pub(crate) told: Vec<(Pos, Fate)>,
    pub(crate) watch: Watch,
    // For each sector, its cells after the tick and the window over them; nothing for those that go
    // on as they are.
    pub(crate) changes: Vec<Option<Cells>>,
    pub(crate) fresh: Vec<Option<Fresh>>,
    // No window yet, and room for one of each sector; and room for those that have entries, which
    // are kept.
    pub(crate) windows: Vec<Vec<Entry>>,
    pub(crate) kept: Vec<KeptWindow>,
}

impl Ready {
    /// What the tick takes that was worked of these sectors, those of a world of this size, whose
    /// next windows this version judges. If it is the one that judges their windows, but for its
    /// number, what is made costs what was recorded and what the tick puts down.
    pub fn new(
        alloc: Global,
        bounds: Bounds,
        sectors: &[Sector],
        version: Version,
        is_same_policy: bool,
        work: Work,
    ) -> Result<Ready, AllocError>
        requires placed { AreSectors bounds (map cells_of sectors.now) }
        requires same { is_same_policy ≡ true
            → All (λ s. record s.version { tick = version.tick } ≡ version) sectors.now }
        ensures { IfOk result (λ ready. IsReady bounds sectors.now work version ready) }
    {
        let Work { plan, watch } = work;
        let told = plan.fates.as_slice().to_vec(alloc)?;
        let changes = cells_after(alloc, bounds, sectors, plan.puts.as_slice())?;
        let fresh = all_fresh(alloc, sectors, &changes, &version, is_same_policy)?;
        let windows = Vec::with_capacity(alloc, sectors.len())?;
        let kept = Vec::with_capacity(alloc, busy_sectors(sectors))?;
        Ok(Ready {
            version,
            fates: plan.fates,
            told,
            watch,
            changes,
            fresh,
            windows,
            kept,
        })
    }
}
