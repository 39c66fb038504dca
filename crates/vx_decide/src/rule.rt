ghost use Rattle.std.specs.Prelude.{Some};

use std::fmt;
use vx_flag::Flag;
use vx_region::RegionNo;

/// The rule that decides, by the numbers of regions; number 0 is the world at large, `__global__`.
#[derive(Clone, Copy, Debug, PartialEq, Eq)]
pub enum Rule {
    /// The action's own flag, which decides at one region and is set in that or in one of its
    /// ancestors.
    // The flag comes first, beside the byte that tells the variants apart: so a rule takes 12 bytes
    // and not 16.
    Flag {
        flag: Flag,
        at: RegionNo,
        from: RegionNo,
    },
    /// The flag `build`, where the action's own flag is not set.
    Build {
        at: RegionNo,
        from: RegionNo,
    },
    /// Membership in a region, or the lack of it.
    Member {
        at: RegionNo,
    },
    /// Nothing stands against it.
    Default,
}

impl fmt::Display for Rule {
    ghost use Rattle.vx_decide.specs.Texts.{rule_text};

    ghost output = { λ rule. Some (rule_text rule) };

    fn fmt<W: fmt::Write>(&self, f: &mut fmt::Formatter<W>) -> fmt::Result {
        match self {
            Rule::Flag { at, from, flag } => {
                let (at, from) = (at.0, from.0);
                write!(f, "flag {flag} at {at} from {from}")
            }
            Rule::Build { at, from } => {
                let (at, from) = (at.0, from.0);
                write!(f, "build at {at} from {from}")
            }
            Rule::Member { at } => {
                let number = at.0;
                write!(f, "member at {number}")
            }
            Rule::Default => write!(f, "default"),
        }
    }
}
