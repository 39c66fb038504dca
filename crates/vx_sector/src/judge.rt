ghost use Rattle.std.specs.Prelude.{◌≡◌, IfOk};
ghost use Rattle.vx_region.specs.Subjects.{Named};
ghost use Rattle.vx_decide.specs.Verdict.{verdict};

use std::alloc::{AllocError, Global};
use std::marker::Model;
use vx_decide::Verdict;
use vx_flag::Action;
use vx_geom::Pos;
use vx_index::Cache;
use vx_policy::Version;
use vx_region::Name;

/// The version of the policy that judges a window, with what is kept of its decisions.
#[derive(Drop)]
pub(crate) struct Judge {
    pub(crate) version: Version,
    pub(crate) cache: Cache,
}

impl Model for Judge {
    ghost use Rattle.vx_policy.specs.declared.version.Version.{Version};
    ghost use Rattle.vx_index.specs.Tiles.{IsCacheOf};

    ghost Value = { Version };

    ghost view = { λ a. a.version };

    ghost invariant = { λ a. IsCacheOf a.version.policy a.cache };
}

impl Judge {
    /// A copy of the version, which has decided nothing yet.
    pub(crate) fn new(alloc: Global, version: &Version) -> Result<Judge, AllocError>
        ensures { IfOk result (λ judge. judge ≡ version.now) }
    {
        Ok(Judge {
            version: version.try_clone()?,
            cache: Cache::new(alloc),
        })
    }

    /// The version.
    pub(crate) fn version(&self) -> &Version
        ensures { result.now ≡ self.now }
    {
        &self.version
    }

    /// Goes on under another number, by the same policy, and keeps what it decided.
    pub(crate) fn go_on(&mut self, tick: u64)
        ensures { self.new ≡ record self.old { tick = tick } }
    {
        self.version.tick = tick;
    }

    /// Whether the player may do this at the place, and the rule that says so. Where memory is
    /// wanting nothing is kept, and the answer is the same.
    pub(crate) fn ask(&mut self, name: &Name, action: Action, p: Pos) -> Verdict
        ensures verdict { result
            ≡ verdict self.old.policy (Named name.now.text.bytes) action p }
        ensures same { self.new ≡ self.old }
    {
        self.version.policy.ask(&mut self.cache, name, action, p)
    }
}
