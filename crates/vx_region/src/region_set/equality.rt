//! Whether two sets of regions are the same. It takes no memory.
ghost use Rattle.std.specs.Bool.{Decides};
ghost use Rattle.std.specs.Prelude.{◌≡◌};
ghost use Rattle.vx_region.specs.SameRegions.{same_entry, same_entries, same_regions};

use super::RegionSet;
use crate::region::Region;
use crate::region_no::RegionNo;

impl RegionSet {
    #[tactic(auto, unfolding(crate::specs::SameRegions::same_regions))]
    fn same_parts(&self, other: &RegionSet) -> bool
        ensures { result ≡ same_regions self.now other.now }
    {
        self.last == other.last && self.global == other.global && self.same_entries(other)
    }

    fn same_entries(&self, other: &RegionSet) -> bool
        ensures { result ≡ same_entries self.now.entries other.now.entries }
    {
        if self.count() != other.count() {
            return false;
        }
        for i in 0..self.count() {
            let (number, region) = self.nth(i);
            let (other_number, other_region) = other.nth(i);
            if !same_entry(number, region, other_number, other_region) {
                return false;
            }
        }
        true
    }
}

// Whether the two regions are the same, and under the same number.
#[tactic(auto, unfolding(crate::specs::SameRegions::same_entry))]
fn same_entry(number: RegionNo, region: &Region, other_number: RegionNo, other: &Region) -> bool
    ensures { result ≡ same_entry (number.0, region.now) (other_number.0, other.now) }
{
    number == other_number && *region == *other
}

impl PartialEq for RegionSet {
    ghost use Rattle.std.specs.Cmp.{partial_equiv_from_equiv};
    ghost use Rattle.vx_region.specs.RegionsLaws.{regions_equiv};

    ghost eq = { same_regions };

    ghost laws = { partial_equiv_from_equiv regions_equiv };

    /// Whether both have the same regions under the same numbers, in every part, the same number
    /// given last and the same flags of the world at large.
    fn eq(&self, other: &RegionSet) -> bool
        ensures value { result ≡ same_regions self.now other.now }
        ensures decides { Decides result (self.now ≡ other.now) }
    {
        self.same_parts(other)
    }
}

impl Eq for RegionSet {
    ghost use Rattle.vx_region.specs.RegionsLaws.{regions_equiv};

    ghost laws = { regions_equiv };
}
