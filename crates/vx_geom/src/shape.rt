ghost use Rattle.std.specs.Prelude.{◌≡◌, ◌↔◌, true, false, IsTrue, IfOk, OnOk, OnErr};
ghost use Rattle.vx_geom.specs.Outline.{Cuboid, Polygon, is_in, is_cuboid, is_polygon, in_cuboid, in_columns, is_amid, lower, higher};
ghost use Rattle.vx_geom.specs.Extent.{extent_of};
ghost use Rattle.vx_geom.specs.Row.{row_between, row_of};
ghost use Rattle.vx_geom.specs.SameOutline.{same_outline, same_corners, same_corner, same_points, same_ends};

use crate::bad_shape::BadShape;
use crate::extent::{Extent, of_corners, of_points};
use crate::polygon::{in_polygon, row_of};
use crate::pos::Pos;
use std::alloc::{AllocError, Global};
use std::marker::Model;

// A polygon has that many points.
const MIN_POINTS: usize = 3;

const MAX_POINTS: usize = 64;

/// The shape of a region: a cuboid with its corners and all between, or a polygon over columns
/// between two heights.
#[derive(Drop)]
pub struct Shape {
    kind: ShapeKind,
}

// A cuboid by its least and its greatest corner, a polygon by its points and its lowest and its
// highest y.
#[derive(Drop)]
enum ShapeKind {
    Cuboid(Pos, Pos),
    Polygon(Vec<(i32, i32)>, i32, i32),
}

impl Model for Shape {
    ghost use Rattle.vx_geom.specs.Outline.{Outline};

    ghost Value = { Outline };

    ghost use Rattle.vx_geom.specs.ShapeKind.{outline};

    ghost view = { λ a. outline a.kind };
}

impl Shape {
    /// The cuboid between two corners, which may be named in any order.
    pub fn cuboid(a: Pos, b: Pos) -> Shape
        ensures { result ≡ Cuboid (lower a b) (higher a b) }
    {
        Shape {
            kind: ShapeKind::Cuboid(lower(a, b), higher(a, b)),
        }
    }

    /// The polygon over the columns with these points, each an x and a z, from the height `y0` up
    /// to `y1`. It keeps the list handed in. Edges may cross one another: the even-odd rule in
    /// docs/RULES.md says what is inside.
    pub fn poly(points: Vec<(i32, i32)>, y0: i32, y1: i32) -> Result<Shape, BadShape>
        ensures ok { IfOk result (λ shape. shape ≡ Polygon points.items y0 y1) }
        ensures good { OnOk result (is_polygon points.items y0 y1 ≡ true) }
        ensures bad { OnErr result (is_polygon points.items y0 y1 ≡ false) }
    {
        if !is_polygon(&points, y0, y1) {
            return Err(BadShape);
        }
        Ok(Shape {
            kind: ShapeKind::Polygon(points, y0, y1),
        })
    }

    /// Whether the position is in the shape, its borders included.
    #[tactic(auto, unfolding(crate::specs::Outline::is_in))]
    pub fn contains(&self, p: Pos) -> bool
        ensures { result ≡ is_in self.now p }
    {
        match &self.kind {
            ShapeKind::Cuboid(low, high) => in_cuboid(low, high, &p),
            ShapeKind::Polygon(points, low, high) => is_amid(*low, *high, p.y)
                && in_polygon(points, &p),
        }
    }

    /// Whether the shape is a cuboid.
    pub fn is_cuboid(&self) -> bool
        ensures { result ≡ is_cuboid self.now }
    {
        matches!(self.kind, ShapeKind::Cuboid(_, _))
    }

    /// The columns that the shape lies in. It costs the points of a polygon and takes no memory.
    #[tactic(auto, unfolding(crate::specs::Extent::extent_of))]
    pub fn extent(&self) -> Extent
        ensures { result ≡ extent_of self.now }
    {
        match &self.kind {
            ShapeKind::Cuboid(low, high) => of_corners(low, high),
            ShapeKind::Polygon(points, _, _) => of_points(points),
        }
    }

    /// Columns of the row at `z`, from one to another, among which are all that the shape has there;
    /// `None` where no part of its sides reaches the row. A polygon's edges are cut at the row to
    /// whole columns, so there may be one more than it has at either end, and gaps between. It costs
    /// the points of a polygon and takes no memory.
    #[tactic(auto, using(vx_base::proofs::Signed::signed), unfolding(crate::specs::Row::row_of))]
    pub fn row(&self, z: i32) -> Option<Extent>
        ensures { result ≡ row_of self.now z }
    {
        match &self.kind {
            ShapeKind::Cuboid(low, high) => row_between(low, high, z),
            ShapeKind::Polygon(points, _, _) => row_of(points, z),
        }
    }

    /// A copy of the shape. It takes memory for a polygon only.
    pub fn try_clone(&self, alloc: Global) -> Result<Shape, AllocError>
        ensures { IfOk result (λ copy. copy ≡ self.now) }
    {
        match &self.kind {
            ShapeKind::Cuboid(low, high) => Ok(Shape {
                kind: ShapeKind::Cuboid(*low, *high),
            }),
            ShapeKind::Polygon(points, low, high) => {
                let points = Vec::from_slice(alloc, points)?;
                Ok(Shape {
                    kind: ShapeKind::Polygon(points, *low, *high),
                })
            }
        }
    }

    /// Whether both are cuboids with the same corners, or polygons with the same points in the same
    /// order and the same heights.
    pub fn same(&self, other: &Shape) -> bool
        ensures value { result ≡ same_outline self.now other.now }
        ensures decides { IsTrue result ↔ (self.now ≡ other.now) }
    {
        self.kind.same(&other.kind)
    }
}

impl Clone for Shape {
    ghost is_clone = { λ shape copy. copy ≡ shape };

    fn clone(&self) -> Result<Shape, AllocError> {
        let kind = match &self.kind {
            ShapeKind::Cuboid(low, high) => ShapeKind::Cuboid(*low, *high),
            ShapeKind::Polygon(points, low, high) => {
                ShapeKind::Polygon(points.clone()?, *low, *high)
            }
        };
        Ok(Shape { kind })
    }
}

impl PartialEq for Shape {
    ghost use Rattle.std.specs.Cmp.{partial_equiv_from_equiv};
    ghost use Rattle.vx_geom.specs.OutlineLaws.{outlines_equiv};

    ghost eq = { same_outline };

    ghost laws = { partial_equiv_from_equiv outlines_equiv };

    fn eq(&self, other: &Shape) -> bool {
        self.same(other)
    }
}

impl Eq for Shape {
    ghost use Rattle.vx_geom.specs.OutlineLaws.{outlines_equiv};

    ghost laws = { outlines_equiv };
}

/// Whether these points between these heights are a polygon.
#[tactic(auto, unfolding(crate::specs::Outline::is_polygon))]
pub(crate) fn is_polygon(points: &[(i32, i32)], y0: i32, y1: i32) -> bool
    ensures { result ≡ is_polygon points.now y0 y1 }
{
    if !(MIN_POINTS..=MAX_POINTS).contains(&points.len()) {
        return false;
    }
    y0 <= y1
}

impl ShapeKind {
    ghost use Rattle.vx_geom.specs.ShapeKind.{outline};

    #[tactic(auto, unfolding(crate::specs::SameOutline::same_outline))]
    fn same(&self, other: &ShapeKind) -> bool
        ensures { result ≡ same_outline (outline self.now) (outline other.now) }
    {
        match self {
            ShapeKind::Cuboid(low, high) => match other {
                ShapeKind::Cuboid(other_low, other_high) => same_corners(
                    low, high, other_low, other_high,
                ),
                ShapeKind::Polygon(_, _, _) => false,
            },
            ShapeKind::Polygon(points, low, high) => match other {
                ShapeKind::Cuboid(_, _) => false,
                ShapeKind::Polygon(other_points, other_low, other_high) => {
                    same_points(points, other_points)
                        && same_ends(*low, *high, *other_low, *other_high)
                }
            },
        }
    }
}

#[tactic(auto, unfolding(crate::specs::SameOutline::same_corners))]
fn same_corners(a: &Pos, b: &Pos, c: &Pos, d: &Pos) -> bool
    ensures { result ≡ same_corners a.now b.now c.now d.now }
{
    same_corner(a, c) && same_corner(b, d)
}

#[tactic(auto, unfolding(crate::specs::SameOutline::same_corner))]
fn same_corner(a: &Pos, b: &Pos) -> bool
    ensures { result ≡ same_corner a.now b.now }
{
    a == b
}

#[tactic(auto, unfolding(crate::specs::SameOutline::same_points, crate::specs::SameOutline::same_column))]
fn same_points(ps: &[(i32, i32)], qs: &[(i32, i32)]) -> bool
    ensures { result ≡ same_points ps.now qs.now }
{
    ps == qs
}

#[tactic(auto, unfolding(crate::specs::SameOutline::same_ends))]
fn same_ends(a: i32, b: i32, c: i32, d: i32) -> bool
    ensures { result ≡ same_ends a b c d }
{
    a == c && b == d
}

#[tactic(auto, using(vx_base::proofs::Signed::signed), unfolding(crate::specs::Row::row_between))]
fn row_between(low: &Pos, high: &Pos, z: i32) -> Option<Extent>
    ensures { result ≡ row_between low.now high.now z }
{
    if !is_amid(low.z, high.z, z) {
        return None;
    }
    Some(Extent {
        west: low.x,
        east: high.x,
        north: z,
        south: z,
    })
}

// The corner with the lesser of each two coordinates.
#[tactic(auto, using(vx_base::proofs::Signed::signed), unfolding(crate::specs::Outline::lower))]
fn lower(a: Pos, b: Pos) -> Pos
    ensures { result ≡ lower a b }
{
    Pos::new(a.x.min(b.x), a.y.min(b.y), a.z.min(b.z))
}

// The corner with the greater of each two coordinates.
#[tactic(auto, using(vx_base::proofs::Signed::signed), unfolding(crate::specs::Outline::higher))]
fn higher(a: Pos, b: Pos) -> Pos
    ensures { result ≡ higher a b }
{
    Pos::new(a.x.max(b.x), a.y.max(b.y), a.z.max(b.z))
}

#[tactic(auto, using(vx_base::proofs::Signed::signed), unfolding(crate::specs::Outline::in_cuboid))]
fn in_cuboid(low: &Pos, high: &Pos, p: &Pos) -> bool
    ensures { result ≡ in_cuboid low.now high.now p.now }
{
    in_columns(low, high, p) && is_amid(low.y, high.y, p.y)
}

#[tactic(auto, using(vx_base::proofs::Signed::signed), unfolding(crate::specs::Outline::in_columns))]
fn in_columns(low: &Pos, high: &Pos, p: &Pos) -> bool
    ensures { result ≡ in_columns low.now high.now p.now }
{
    is_amid(low.x, high.x, p.x) && is_amid(low.z, high.z, p.z)
}

/// Whether `c` lies from `low` to `high`.
pub(crate) fn is_amid(low: i32, high: i32, c: i32) -> bool
    ensures { result ≡ is_amid low high c }
{
    low <= c && c <= high
}
