use vx_flag::State;
use vx_region::RegionNo;

/// The value of a flag for somebody, and the region that sets it, 0 for the world at large.
#[derive(Clone, Copy, Debug, PartialEq, Eq)]
pub struct Value {
    pub state: State,
    pub from: RegionNo,
}
