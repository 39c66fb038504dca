//! Copies of a set of regions.
ghost use Rattle.std.specs.Prelude.{◌≡◌, IfOk};

use super::RegionSet;
use std::alloc::AllocError;

impl RegionSet {
    /// A copy with the same regions under the same numbers. A change of one is no change of the
    /// other.
    pub fn try_clone(&self) -> Result<RegionSet, AllocError>
        ensures { IfOk result (λ copy. copy ≡ self.now) }
    {
        self.clone()
    }
}

impl Clone for RegionSet {
    ghost is_clone = { λ regions copy. copy ≡ regions };

    fn clone(&self) -> Result<RegionSet, AllocError> {
        Ok(RegionSet {
            last: self.last,
            regions: self.regions.clone()?,
            numbers: self.numbers.clone()?,
            children: self.children.clone()?,
            global: self.global,
        })
    }
}
