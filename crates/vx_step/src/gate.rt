use crate::point::Point;

/// What is called as the sectors come to points of a tick, each in the thread that works it: so a
/// test can hold a worker. It changes no result.
pub trait Gate {
    /// A sector comes to this point.
    fn at(&self, sector: u32, point: Point);
}
