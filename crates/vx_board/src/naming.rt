ghost use Rattle.vx_region.specs.Regions.{Regions, no_regions};

use std::marker::Brand;

/// Names a desk in the types of what belongs to it, by its first policy: the one that it was opened
/// with.
pub trait Naming {
    ghost first: { Regions };
}

impl Naming for Brand {
    ghost first = { no_regions };
}
