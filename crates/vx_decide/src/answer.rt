use crate::value::Value;
use vx_region::RegionNo;

/// What the policy answers on a flag at a place: the region that decides, 0 for the world at large,
/// and its value.
#[derive(Clone, Copy, Debug, PartialEq, Eq)]
pub struct Answer {
    pub at: RegionNo,
    pub value: Value,
}
