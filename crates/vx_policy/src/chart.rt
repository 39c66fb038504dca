ghost use Rattle.std.specs.Prelude.{◌≡◌, true, None, IfOk};
ghost use Rattle.vx_decide.specs.Verdict.{verdict};
ghost use Rattle.vx_index.specs.Tiles.{IsCacheOf};
ghost use Rattle.vx_policy.specs.Asked.{asked};
ghost use Rattle.vx_policy.specs.Charts.{IsChartOf};
ghost use Rattle.vx_policy.specs.Edits.{edited};
ghost use Rattle.vx_policy.specs.Refusals.{refusal};
ghost use Rattle.vx_region.specs.Regions.{no_regions};
ghost use Rattle.vx_region.specs.Subjects.{actor_of, Named};

use crate::edit::Edit;
use crate::land_after::land_after;
use crate::reshaped::reshaped;
use crate::unset::{all_unset, stay_unset, unset_after};
use std::alloc::{AllocError, Global};
use vx_decide::Verdict;
use vx_flag::{Action, Flag};
use vx_geom::Pos;
use vx_index::{Cache, Land};
use vx_region::{Name, RegionSet, Subject};

/// What decisions by a set of regions are found by: where the regions lie, and flags that are set
/// nowhere.
pub(crate) struct Chart {
    land: Land,
    unset: Vec<Flag>,
}

// Written out, so that what is above this crate need not prove how its parts are let go.
impl Drop for Chart {
    fn drop(self) {
        let Chart {
            land: _land,
            unset: _unset,
        } = self;
    }
}

impl Chart {
    /// The chart of these regions, of which there are none yet.
    pub(crate) fn new(alloc: Global, regions: &RegionSet) -> Result<Chart, AllocError>
        requires { regions.now ≡ no_regions }
        ensures { IfOk result (IsChartOf regions.now) }
    {
        Ok(Chart {
            land: Land::of(alloc, regions)?,
            unset: all_unset(alloc)?,
        })
    }

    /// The chart of the regions after an edit that nothing stands against, where this is the chart
    /// of those before it. It shares the tiles that stay.
    pub(crate) fn after(
        &self,
        alloc: Global,
        regions: &RegionSet,
        edit: &Edit,
    ) -> Result<Chart, AllocError>
        requires chart { IsChartOf regions.now self.now }
        requires free { refusal regions.now (asked edit.now) ≡ None }
        ensures { IfOk result (IsChartOf (edited regions.now (asked edit.now))) }
    {
        Ok(Chart {
            land: land_after(alloc, &self.land, regions, edit)?,
            unset: unset_after(alloc, &self.unset, edit)?,
        })
    }

    /// Whether this is the chart of the regions after an edit that nothing stands against, too,
    /// since the edit changes no shape and sets no flag that was set nowhere.
    pub(crate) fn stays(&self, regions: &RegionSet, edit: &Edit) -> bool
        requires chart { IsChartOf regions.now self.now }
        requires free { refusal regions.now (asked edit.now) ≡ None }
        ensures { result ≡ true → IsChartOf (edited regions.now (asked edit.now)) self.now }
    {
        match reshaped(regions, edit) {
            Some(_) => false,
            None => stay_unset(&self.unset, edit),
        }
    }

    /// Whether the subject may do this at the place by these regions, and the rule that says so. It
    /// costs the regions near the place, and takes no memory.
    pub(crate) fn decide(
        &self,
        regions: &RegionSet,
        subject: &Subject,
        action: Action,
        p: Pos,
    ) -> Verdict
        requires { IsChartOf regions.now self.now }
        ensures { result ≡ verdict regions.now (actor_of subject.now) action p }
    {
        self.land.decide(regions, &self.unset, subject, action, p)
    }

    /// Whether the player may do this at the place by these regions, and the rule that says so, by
    /// what is kept of earlier verdicts or by the regions near the place.
    pub(crate) fn ask(
        &self,
        regions: &RegionSet,
        cache: &mut Cache,
        name: &Name,
        action: Action,
        p: Pos,
    ) -> Verdict
        requires chart { IsChartOf regions.now self.now }
        requires kept { IsCacheOf regions.now cache.old }
        ensures verdict { result ≡ verdict regions.now (Named name.now.text.bytes) action p }
        ensures kept { IsCacheOf regions.now cache.new }
    {
        cache.ask(regions, &self.land, &self.unset, name, action, p)
    }
}
