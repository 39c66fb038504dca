ghost use Rattle.std.specs.Prelude.{◌≡◌, None, Some, Err, option_map, IfOk, IfSome, OnErr};
ghost use Rattle.std.specs.Arc.{arc_value};
ghost use Rattle.std.specs.Bool.{Decides};
ghost use Rattle.vx_decide.specs.Verdict.{verdict};
ghost use Rattle.vx_index.specs.Tiles.{IsCacheOf};
ghost use Rattle.vx_policy.specs.Asked.{asked};
ghost use Rattle.vx_policy.specs.Charts.{IsChartOf};
ghost use Rattle.vx_policy.specs.Edits.{edited, number_given};
ghost use Rattle.vx_policy.specs.Refusals.{refusal};
ghost use Rattle.vx_policy.specs.declared.edit_error.EditError.{EditError};
ghost use Rattle.vx_policy.specs.declared.edit_refusal.EditRefusal.{EditRefusal};
ghost use Rattle.vx_region.specs.Regions.{no_regions};
ghost use Rattle.vx_region.specs.SameRegions.{same_regions};
ghost use Rattle.vx_region.specs.Subjects.{Named};

mod refusals;

use crate::changes::change;
use crate::chart::Chart;
use crate::edit::Edit;
use crate::edit_error::EditError;
use crate::edit_refusal::EditRefusal;
use std::alloc::{AllocError, Global};
use std::marker::Model;
use std::sync::Arc;
use vx_decide::{Decide, Plain, Verdict};
use vx_flag::Action;
use vx_geom::Pos;
use vx_index::Cache;
use vx_region::{Name, RegionNo, RegionSet, Subject};

/// The written policy: a set of regions that is changed by edits, mostly with a chart of them, by
/// which decisions cost the regions near the place alone. A copy shares all of it. An edit changes
/// the policy in place, and copies first what it touches and a copy shares.
pub struct Policy {
    regions: Arc<RegionSet>,
    // `None` where the policy is kept for its regions.
    chart: Option<Arc<Chart>>,
}

impl Model for Policy {
    ghost use Rattle.std.specs.Arc.{arc_value};
    ghost use Rattle.std.specs.Prelude.{IfSome};
    ghost use Rattle.vx_policy.specs.Charts.{IsChartOf};
    ghost use Rattle.vx_region.specs.Regions.{Regions};

    ghost Value = { Regions };

    ghost view = { λ a. arc_value a.regions };

    ghost invariant = { λ a. IfSome a.chart
        (λ chart. IsChartOf (arc_value a.regions) (arc_value chart)) };
}

// Written out, so that what is above this crate need not prove how its parts are let go.
impl Drop for Policy {
    fn drop(self) {
        let Policy {
            regions: _regions,
            chart: _chart,
        } = self;
    }
}

impl Policy {
    /// The policy without regions.
    pub fn new(alloc: Global) -> Result<Policy, AllocError>
        ensures { IfOk result (λ policy. policy ≡ no_regions) }
    {
        let regions = RegionSet::new(alloc);
        let chart = Chart::new(alloc, &regions)?;
        Ok(Policy {
            regions: Arc::new(alloc, regions)?,
            chart: Some(Arc::new(alloc, chart)?),
        })
    }

    /// The regions as they are now.
    pub fn regions(&self) -> &RegionSet
        ensures { result.now ≡ self.now }
    {
        &self.regions
    }

    /// A copy of the policy, which shares its regions. A change of one is no change of the other.
    pub fn try_clone(&self) -> Result<Policy, AllocError>
        ensures { IfOk result (λ copy. copy ≡ self.now) }
    {
        Ok(Policy {
            regions: Arc::try_clone(&self.regions)?,
            chart: self.shared_chart()?,
        })
    }

    // The chart once more, where there is one.
    fn shared_chart(&self) -> Result<Option<Arc<Chart>>, AllocError>
        ensures { IfOk result
            (λ chart. IfSome chart (λ chart. IsChartOf self.now (arc_value chart))) }
    {
        let Some(chart) = &self.chart else {
            return Ok(None);
        };
        Ok(Some(Arc::try_clone(chart)?))
    }

    /// Lets the chart go, which takes most of a policy's memory. The policy keeps its regions, and
    /// gives the same verdicts by a walk over all of them. It is for records, which are kept and
    /// hardly asked. It takes no memory.
    pub fn without_chart(self) -> Policy
        ensures { result ≡ self }
    {
        let Policy {
            regions,
            chart: _chart,
        } = self;
        Policy {
            regions,
            chart: None,
        }
    }

    /// Makes an edit that nothing stands against, and answers the number that a definition gave.
    /// What takes memory is what the edit touches: where a copy shares it, the region with those
    /// that stand in one block with it, and where its shape changes the tiles in which it lies. So
    /// the first edit behind a copy costs a pointer for each block of regions, and those behind it
    /// do not. Where the policy is without its chart, it stays so.
    pub fn change(&mut self, alloc: Global, edit: &Edit) -> Result<Option<RegionNo>, AllocError>
        requires { refusal self.old (asked edit.now) ≡ None }
        ensures ok { IfOk result (λ n. (self.new ≡ edited self.old (asked edit.now))
            × (option_map (λ n. n.0) n ≡ number_given self.old (asked edit.now))) }
        ensures err { OnErr result (self.new ≡ self.old) }
    {
        // Before the regions change: where there is no memory for it, all stays as it was.
        let chart = self.chart_after(alloc, edit)?;
        let number = change_shared(&mut self.regions, alloc, edit)?;
        self.chart = chart;
        Ok(number)
    }

    // The chart of the regions after an edit that nothing stands against, where these have one. It
    // is shared where it stays as it is.
    fn chart_after(&self, alloc: Global, edit: &Edit) -> Result<Option<Arc<Chart>>, AllocError>
        requires { refusal self.now (asked edit.now) ≡ None }
        ensures { IfOk result (λ chart. IfSome chart
            (λ chart. IsChartOf (edited self.now (asked edit.now)) (arc_value chart))) }
    {
        let Some(chart) = &self.chart else {
            return Ok(None);
        };
        if chart.stays(&self.regions, edit) {
            return Ok(Some(Arc::try_clone(chart)?));
        }
        let chart = chart.after(alloc, &self.regions, edit)?;
        Ok(Some(Arc::new(alloc, chart)?))
    }

    /// Applies an edit and answers the number that a definition gave, or refuses it by the first
    /// cause that stands against it. A refusal leaves the policy as it was, and so does want of
    /// memory.
    pub fn apply(&mut self, alloc: Global, edit: Edit) -> Result<Option<RegionNo>, EditError>
        ensures ok { IfOk result (λ n. (refusal self.old (asked edit) ≡ None)
            × (self.new ≡ edited self.old (asked edit))
            × (option_map (λ n. n.0) n ≡ number_given self.old (asked edit))) }
        ensures refused { (cause : EditRefusal) → result ≡ Err (EditError.Refused cause)
            → refusal self.old (asked edit) ≡ Some cause }
        ensures memory { result ≡ Err EditError.NoMemory → refusal self.old (asked edit) ≡ None }
        ensures err { OnErr result (self.new ≡ self.old) }
    {
        if let Some(refusal) = self.refusal(&edit) {
            return Err(EditError::Refused(refusal));
        }
        self.change(alloc, &edit).map_err(|_| EditError::NoMemory)
    }

    /// Whether the player may do this at the place, and the rule that says so (docs/RULES.md). The
    /// verdict is looked up among those that are kept, or found among the regions near the place
    /// and kept. Where memory is wanting it is not kept, and the answer is the same. Without a
    /// chart it is found among all regions, and what is kept stays as it is.
    pub fn ask(&self, cache: &mut Cache, name: &Name, action: Action, p: Pos) -> Verdict
        requires { IsCacheOf self.now cache.old }
        ensures verdict { result ≡ verdict self.now (Named name.now.text.bytes) action p }
        ensures kept { IsCacheOf self.now cache.new }
    {
        match &self.chart {
            Some(chart) => chart.ask(&self.regions, cache, name, action, p),
            None => Plain::new(&self.regions).decide(&Subject::Player(*name), action, p),
        }
    }
}

/// It costs the regions near the place, without a chart all regions, and takes no memory.
impl Decide for Policy {
    ghost policy = { λ a. a };

    fn decide(&self, subject: &Subject, action: Action, p: Pos) -> Verdict {
        match &self.chart {
            Some(chart) => chart.decide(&self.regions, subject, action, p),
            None => Plain::new(&self.regions).decide(subject, action, p),
        }
    }
}

// Makes an edit of regions that copies may share, as `change` does of regions that none shares.
fn change_shared(
    regions: &mut Arc<RegionSet>,
    alloc: Global,
    edit: &Edit,
) -> Result<Option<RegionNo>, AllocError>
    requires { refusal (arc_value regions.old) (asked edit.now) ≡ None }
    ensures ok { IfOk result (λ n.
        (arc_value regions.new ≡ edited (arc_value regions.old) (asked edit.now))
        × (option_map (λ n. n.0) n ≡ number_given (arc_value regions.old) (asked edit.now))) }
    ensures err { OnErr result (arc_value regions.new ≡ arc_value regions.old) }
{
    change(Arc::make_mut(regions)?, alloc, edit)
}

impl PartialEq for Policy {
    ghost use Rattle.std.specs.Cmp.{partial_equiv_from_equiv};
    ghost use Rattle.vx_region.specs.RegionsLaws.{regions_equiv};

    ghost eq = { same_regions };

    ghost laws = { partial_equiv_from_equiv regions_equiv };

    /// Whether both have the same regions, in every part, and the same flags of the world at large.
    fn eq(&self, other: &Policy) -> bool
        ensures value { result ≡ same_regions self.now other.now }
        ensures decides { Decides result (self.now ≡ other.now) }
    {
        *self.regions() == *other.regions()
    }
}

impl Eq for Policy {
    ghost use Rattle.vx_region.specs.RegionsLaws.{regions_equiv};

    ghost laws = { regions_equiv };
}
