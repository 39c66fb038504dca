/// The number of a region. The first region that is defined has number 1, each further one the next
/// number.
#[derive(Clone, Copy, Debug, PartialEq, Eq, PartialOrd, Ord)]
pub struct RegionNo(pub u32);
