ghost use Rattle.std.specs.Prelude.{◌≡◌, IfOk};
ghost use Rattle.std.specs.Borrow.{sem};
ghost use Rattle.vx_region.specs.Sharing.{lends_region};

use crate::region::Region;
use std::alloc::{AllocError, Global};
use std::marker::Model;
use std::sync::Arc;

/// A region as a set holds it: copies of the set share it until one of them changes it.
#[derive(Drop)]
pub(crate) struct SharedRegion {
    region: Arc<Region>,
}

impl Model for SharedRegion {
    ghost use Rattle.std.specs.Arc.{arc_value};
    ghost use Rattle.vx_region.specs.Regions.{RegionData};

    ghost Value = { RegionData };

    ghost view = { λ a. arc_value a.region };
}

impl SharedRegion {
    /// This region, which nothing shares yet.
    pub(crate) fn new(alloc: Global, region: Region) -> Result<SharedRegion, AllocError>
        ensures { IfOk result (λ shared. shared ≡ region) }
    {
        Ok(SharedRegion {
            region: Arc::new(alloc, region)?,
        })
    }

    /// The region, to read.
    pub(crate) fn region(&self) -> &Region
        ensures { result.now ≡ self.now }
    {
        &self.region
    }

    /// The region, to write. Where a copy shares it, it is copied first.
    pub(crate) fn own(&mut self) -> Result<&mut Region, AllocError>
        ensures* writes_back { sem 𝓛 (lends_region self.entry result) }
        ensures value { IfOk result (λ region. region.now ≡ self.old) }
    {
        Arc::make_mut(&mut self.region)
    }
}

impl Clone for SharedRegion {
    ghost is_clone = { λ shared copy. copy ≡ shared };

    fn clone(&self) -> Result<SharedRegion, AllocError> {
        Ok(SharedRegion {
            region: Arc::try_clone(&self.region)?,
        })
    }
}
