ghost use Rattle.std.specs.Prelude.{◌≡◌, IfOk};
ghost use Rattle.std.specs.Bool.{Decides};

use crate::policy::Policy;
use std::alloc::AllocError;

/// The policy that judges one window of commands and the tick that ends it.
#[derive(Drop)]
pub struct Version {
    /// The number of the version and of its tick, 1 for the policy of the opening.
    pub tick: u64,
    /// How many edits were accepted since the opening.
    pub edits: u64,
    pub policy: Policy,
}

impl Version {
    ghost use Rattle.vx_policy.specs.SameVersions.{same_version};

    /// A copy of the version. It shares the regions, so that it costs the same for every policy.
    pub fn try_clone(&self) -> Result<Version, AllocError>
        ensures { IfOk result (λ copy. copy ≡ self.now) }
    {
        Ok(Version {
            tick: self.tick,
            edits: self.edits,
            policy: self.policy.try_clone()?,
        })
    }

    /// Lets the chart of the policy go, as [`Policy::without_chart`] does. It takes no memory.
    pub fn without_chart(self) -> Version
        ensures { result ≡ self }
    {
        let Version {
            tick,
            edits,
            policy,
        } = self;
        Version {
            tick,
            edits,
            policy: policy.without_chart(),
        }
    }

    #[tactic(auto, unfolding(crate::specs::SameVersions::same_version))]
    fn same_parts(&self, other: &Version) -> bool
        ensures { result ≡ same_version self.now other.now }
    {
        self.tick == other.tick && self.edits == other.edits && self.policy == other.policy
    }
}

impl PartialEq for Version {
    ghost use Rattle.std.specs.Cmp.{partial_equiv_from_equiv};
    ghost use Rattle.vx_policy.specs.SameVersions.{same_version};
    ghost use Rattle.vx_policy.specs.VersionLaws.{version_equiv};

    ghost eq = { same_version };

    ghost laws = { partial_equiv_from_equiv version_equiv };

    /// Whether both are the same in every part.
    fn eq(&self, other: &Version) -> bool
        ensures value { result ≡ same_version self.now other.now }
        ensures decides { Decides result (self.now ≡ other.now) }
    {
        self.same_parts(other)
    }
}

impl Eq for Version {
    ghost use Rattle.vx_policy.specs.VersionLaws.{version_equiv};

    ghost laws = { version_equiv };
}
