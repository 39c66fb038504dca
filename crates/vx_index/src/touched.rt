ghost use Rattle.std.specs.Prelude.{◌≡◌, option_copied, option_map};
ghost use Rattle.vx_geom.specs.Extent.{extent_of};
ghost use Rattle.vx_index.specs.Shapes.{shape_at};
ghost use Rattle.vx_index.specs.Touching.{AreTouched, any_meets, any_shares_row, share_row, touches, touches_row};

use vx_geom::{Extent, Shape};
use vx_region::{RegionNo, RegionSet};

/// The columns in which a region lies before its shape changes, if it has one, and those after it.
#[derive(Clone, Copy)]
pub(crate) struct Touched {
    before: Option<Extent>,
    after: Option<Extent>,
}

impl Touched {
    /// The columns of the region of that number, and of this shape, if there is one.
    pub(crate) fn of(regions: &RegionSet, number: RegionNo, shape: Option<&Shape>) -> Touched
        ensures { AreTouched (shape_at regions.now number.0) (option_copied shape.entry) result }
    {
        Touched {
            before: extent_at(regions, number),
            after: extent_of(shape),
        }
    }

    /// Whether the region lies as far from the north as one of these columns, before or after.
    pub(crate) fn touches_row(&self, columns: &Extent) -> bool
        ensures { result ≡ touches_row self.now columns.now }
    {
        any_shares_row(&self.before, columns) || any_shares_row(&self.after, columns)
    }

    /// Whether the region lies in one of these columns, before or after.
    pub(crate) fn touches(&self, columns: &Extent) -> bool
        ensures { result ≡ touches self.now columns.now }
    {
        any_meets(&self.before, columns) || any_meets(&self.after, columns)
    }
}

// The columns of the region of that number.
fn extent_at(regions: &RegionSet, number: RegionNo) -> Option<Extent>
    ensures { result ≡ option_map extent_of (shape_at regions.now number.0) }
{
    extent_of(Some(regions.get(number)?.shape()))
}

// The columns of a shape, if there is one.
fn extent_of(shape: Option<&Shape>) -> Option<Extent>
    ensures { result ≡ option_map extent_of (option_copied shape.entry) }
{
    Some(shape?.extent())
}

// Whether there are columns of which one is among those of the other.
fn any_meets(extent: &Option<Extent>, columns: &Extent) -> bool
    ensures { result ≡ any_meets extent.now columns.now }
{
    match extent {
        Some(extent) => extent.meets(columns),
        None => false,
    }
}

// Whether there are columns of which one is as far from the north as one of the others.
fn any_shares_row(extent: &Option<Extent>, columns: &Extent) -> bool
    ensures { result ≡ any_shares_row extent.now columns.now }
{
    match extent {
        Some(extent) => share_row(extent, columns),
        None => false,
    }
}

// Whether some columns of both are equally far from the north.
#[tactic(auto, using(vx_base::proofs::Signed::signed), unfolding(vx_geom::specs::Extent::overlap))]
fn share_row(a: &Extent, b: &Extent) -> bool
    ensures { result ≡ share_row a.now b.now }
{
    a.north <= b.south && b.north <= a.south
}
