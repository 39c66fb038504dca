ghost use Rattle.std.specs.Prelude.{◌≡◌};
ghost use Rattle.vx_geom.specs.Extent.{is_within, of_corners, of_points, one_column, overlap, widened};

use crate::pos::Pos;
use crate::shape::is_amid;

/// The columns from `west` to `east` and from `north` to `south`, ends included.
#[derive(Clone, Copy, Debug, PartialEq, Eq)]
pub struct Extent {
    pub west: i32,
    pub east: i32,
    pub north: i32,
    pub south: i32,
}

impl Extent {
    ghost use Rattle.vx_geom.specs.Extent.{meets};

    /// Whether the column of the position is one of these.
    pub fn holds(&self, p: Pos) -> bool
        ensures { result ≡ is_within self.now p }
    {
        is_within(self, &p)
    }

    /// Whether some column is one of these and one of the others.
    #[tactic(auto, using(vx_base::proofs::Signed::signed), unfolding(crate::specs::Extent::meets))]
    pub fn meets(&self, other: &Extent) -> bool
        ensures { result ≡ meets self.now other.now }
    {
        overlap(self.west, self.east, other.west, other.east)
            && overlap(self.north, self.south, other.north, other.south)
    }
}

// Whether the column of the position is one of these. It takes the position by reference, as proofs
// of signed fields want it.
#[tactic(auto, using(vx_base::proofs::Signed::signed), unfolding(crate::specs::Extent::is_within))]
fn is_within(extent: &Extent, p: &Pos) -> bool
    ensures { result ≡ is_within extent.now p.now }
{
    is_amid(extent.west, extent.east, p.x) && is_amid(extent.north, extent.south, p.z)
}

// Whether the stretches from a to b and from c to d have a number in common.
#[tactic(auto, unfolding(crate::specs::Extent::overlap))]
fn overlap(a: i32, b: i32, c: i32, d: i32) -> bool
    ensures { result ≡ overlap a b c d }
{
    a <= d && c <= b
}

/// The columns between those of two corners.
#[tactic(auto, using(vx_base::proofs::Signed::signed), unfolding(crate::specs::Extent::of_corners))]
pub(crate) fn of_corners(low: &Pos, high: &Pos) -> Extent
    ensures { result ≡ of_corners low.now high.now }
{
    Extent {
        west: low.x,
        east: high.x,
        north: low.z,
        south: high.z,
    }
}

/// The columns from the least x and z of the points to the greatest.
#[tactic(auto, unfolding(crate::specs::Extent::of_points))]
pub(crate) fn of_points(points: &[(i32, i32)]) -> Extent
    ensures { result ≡ of_points points.now }
{
    let Some(first) = points.first() else {
        return one_column(&(0, 0));
    };
    let mut extent = one_column(first);
    for point in points {
        extent = widened(&extent, point);
    }
    extent
}

#[tactic(auto, using(vx_base::proofs::Signed::signed), unfolding(crate::specs::Extent::one_column))]
fn one_column(c: &(i32, i32)) -> Extent
    ensures { result ≡ one_column c.now }
{
    Extent {
        west: c.0,
        east: c.0,
        north: c.1,
        south: c.1,
    }
}

#[tactic(auto, using(vx_base::proofs::Signed::signed), unfolding(crate::specs::Extent::widened))]
fn widened(extent: &Extent, c: &(i32, i32)) -> Extent
    ensures { result ≡ widened extent.now c.now }
{
    Extent {
        west: extent.west.min(c.0),
        east: extent.east.max(c.0),
        north: extent.north.min(c.1),
        south: extent.south.max(c.1),
    }
}
