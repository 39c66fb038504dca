ghost use Rattle.std.specs.Prelude.{◌≡◌};
ghost use Rattle.std.specs.List.{All};
ghost use Rattle.vx_region.specs.Regions.{Regions};
ghost use Rattle.vx_region.specs.Subjects.{Named};
ghost use Rattle.vx_decide.specs.Unset.{IsUnset};
ghost use Rattle.vx_decide.specs.Verdict.{verdict};
ghost use Rattle.vx_index.specs.Tiles.{IsCacheOf};
ghost use Rattle.vx_index.specs.Lands.{IsLandOf};
ghost use Rattle.vx_index.specs.Shapes.{shape_at};

use crate::asked::Asked;
use crate::kept::Kept;
use crate::land::Land;
use std::alloc::Global;
use vx_decide::Verdict;
use vx_flag::{Action, Flag};
use vx_geom::Pos;
use vx_region::{Name, RegionSet, Subject};

/// What a sector keeps of the decisions by one set of regions: the verdicts that were asked for
/// last where many regions are near. Where memory is wanting less is kept, and the answers are the
/// same.
pub struct Cache {
    pub(crate) alloc: Global,
    pub(crate) kept: Kept,
}

// Written out, so that what is above this crate need not prove how its parts are let go.
impl Drop for Cache {
    fn drop(self) {
        let Cache {
            alloc: _alloc,
            kept: _kept,
        } = self;
    }
}

impl Cache {
    /// Nothing is kept yet, of whatever regions. It takes no memory.
    pub fn new(alloc: Global) -> Cache
        ensures { (rs : Regions) → IsCacheOf rs result }
    {
        Cache {
            alloc,
            kept: Kept::new(),
        }
    }

    /// Whether the player may do this at the place, and the rule that says so (docs/RULES.md), by
    /// these regions and their land; these flags are set nowhere. Where few regions are near it
    /// decides anew, which costs no more than to keep what was decided.
    pub fn ask(
        &mut self,
        regions: &RegionSet,
        land: &Land,
        unset: &[Flag],
        name: &Name,
        action: Action,
        p: Pos,
    ) -> Verdict
        requires kept { IsCacheOf regions.now self.old }
        requires land { IsLandOf (shape_at regions.now) land.now }
        requires unset { All (IsUnset regions.now) unset.now }
        ensures verdict { result ≡ verdict regions.now (Named name.now.text.bytes) action p }
        ensures kept { IsCacheOf regions.now self.new }
    {
        let player = Subject::Player(*name);
        if let Some(verdict) = land.decide_by_few(regions, unset, &player, action, p) {
            return verdict;
        }
        let asked = Asked {
            name: *name,
            action,
            place: p,
        };
        if let Some(verdict) = self.kept.recall(&asked) {
            return verdict;
        }
        let verdict = land.decide(regions, unset, &player, action, p);
        self.kept.keep(self.alloc, &asked, verdict);
        verdict
    }
}
