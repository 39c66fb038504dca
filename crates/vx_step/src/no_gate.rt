use crate::gate::Gate;
use crate::point::Point;

/// A gate that holds nobody.
pub struct NoGate;

impl Gate for NoGate {
    fn at(&self, _sector: u32, _point: Point) {}
}
