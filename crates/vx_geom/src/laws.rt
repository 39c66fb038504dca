ghost use Rattle.std.specs.Prelude.{◌≡◌, Some};
ghost use Rattle.vx_geom.specs.declared.pos.Pos.{Pos};
ghost use Rattle.vx_geom.specs.Extent.{ShapesLieWithin, ExtentsMeet};
ghost use Rattle.vx_geom.specs.Places.{IndicesArePlaces};
ghost use Rattle.vx_geom.specs.Order.{PositionsAreOrdered, compared};
ghost use Rattle.vx_geom.specs.Row.{RowsHoldPositions, RowsLieWithin};
ghost use Rattle.vx_geom.specs.Sectors.{SectorsDivide, IndicesDiffer};

use crate::pos::Pos;

/// `Pos::comes_before` is a total order.
pub fn positions_are_ordered()
    ensures { PositionsAreOrdered }
{}

/// The order of positions that `Ord` and `PartialOrd` give is that of `Pos::comes_before`.
pub fn order_is_derived()
    ensures cmp { (p q : Pos) → ⟦<Pos as Ord>⟧.cmp p q ≡ compared p q }
    ensures partial_cmp { (p q : Pos)
        → ⟦<Pos as PartialOrd>⟧.partial_cmp p q ≡ Some (compared p q) }
{}

/// The sectors divide the box: each position inside has one sector, the one in whose box it lies,
/// and no other has any.
pub fn sectors_divide()
    ensures { SectorsDivide }
{}

/// No two positions of a sector have one index among its cells.
pub fn indices_differ()
    ensures { IndicesDiffer }
{}

/// Each index of a sector has a position there, and each position there has its index; in the
/// order of their indices positions come in order.
pub fn indices_are_places()
    ensures { IndicesArePlaces }
{}

/// A shape has no position outside the columns that `Shape::extent` tells.
pub fn shapes_lie_within()
    ensures { ShapesLieWithin }
{}

/// Extents that hold one column meet.
pub fn extents_meet()
    ensures { ExtentsMeet }
{}

/// A shape has no position in a row outside the columns that `Shape::row` tells of it, and these lie
/// within those that `Shape::extent` tells.
pub fn rows_hold_positions()
    ensures holds { RowsHoldPositions }
    ensures within { RowsLieWithin }
{}
