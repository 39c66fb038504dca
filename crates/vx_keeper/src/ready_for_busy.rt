ghost use Rattle.std.specs.List.{All};
ghost use Rattle.std.specs.Prelude.{◌≡◌, ◌<◌, true, IfOk, length};
ghost use Rattle.vx_cells.specs.Maps.{AreSectors};
ghost use Rattle.vx_windows.specs.Sectors.{cells_of};
ghost use Rattle.vx_keeper.specs.Busy.{with_each};
ghost use Rattle.vx_keeper.specs.Readiness.{IsReadyForBusy};

use crate::busy::{fresh_of, written_cells};
use crate::known::Known;
use crate::next_window::NextWindow;
use crate::ready_at_rest::ReadyAtRest;
use crate::work::Work;
use std::alloc::{AllocError, Global};
use vx_policy::Version;
use vx_record::KeptWindow;
use vx_sector::{Fresh, Sector};

/// All that the tick takes of a world in which nothing is recorded since the last one but in some
/// sectors. It is made before the tick, since making it takes memory and closing windows does not.
#[derive(Drop)]
pub struct ReadyForBusy {
    // What all of the world goes on with.
    pub(crate) lead: ReadyAtRest,
    // For each of those sectors, what its next window begins with.
    pub(crate) fresh: Vec<Fresh>,
    // No window yet, and room for one of each of them: those that have entries are kept.
    pub(crate) kept: Vec<KeptWindow>,
}

impl ReadyForBusy {
    /// What the tick takes that was worked of the world that is known, but for these sectors, whose
    /// next windows this version judges. What is made costs what was recorded and what the tick
    /// puts down, and a place in two lists for each sector.
    pub(crate) fn new(
        alloc: Global,
        known: &Known,
        busy: &[Sector],
        version: Version,
        is_same_policy: bool,
        work: Work,
    ) -> Result<ReadyForBusy, AllocError>
        requires same { is_same_policy ≡ true
            → record known.now.version { tick = version.tick } ≡ version }
        requires there { All (λ s. s.base.sector < length known.now.map.sectors) busy.now }
        requires placed { AreSectors known.now.map.sizes
            (with_each cells_of known.now.map.sectors busy.now) }
        ensures { IfOk result (IsReadyForBusy known.now busy.now work version) }
    {
        let cells = known.cells(alloc)?;
        let written = written_cells(alloc, cells.len(), busy)?;
        let lead = ReadyAtRest::over(alloc, known, &cells, written, version, is_same_policy, work)?;
        let fresh = fresh_of(alloc, &cells, &lead.changes, busy, &lead.version)?;
        let kept = Vec::with_capacity(alloc, busy.len())?;
        Ok(ReadyForBusy { lead, fresh, kept })
    }

    /// What the next windows of sectors begin with, for the busy ones and for those others alone
    /// whose cells change.
    pub fn next(&self) -> &[NextWindow]
        ensures { result.now ≡ self.now.lead.next.items }
    {
        self.lead.next()
    }
}
