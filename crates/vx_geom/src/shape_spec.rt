ghost use Rattle.std.specs.Prelude.{◌≡◌, is_some, IfOk};
ghost use Rattle.std.specs.Result.{result_ok};
ghost use Rattle.vx_geom.specs.Written.{written, outline_asked};

use crate::bad_shape::BadShape;
use crate::pos::Pos;
use crate::shape::{Shape, is_polygon};
use std::alloc::{AllocError, Global};

/// A shape as an edit or a file names it, before anything is asked of it.
#[derive(Drop)]
pub enum ShapeSpec {
    /// Two corners of a cuboid, in any order.
    Cuboid(Pos, Pos),
    /// The points of a polygon, each an x and a z, with its lowest and its highest y.
    Poly(Vec<(i32, i32)>, i32, i32),
}

impl ShapeSpec {
    /// Whether what is specified is a shape.
    #[tactic(auto, unfolding(crate::specs::Written::outline_asked))]
    pub fn is_shape(&self) -> bool
        ensures { result ≡ is_some (outline_asked (written self.now)) }
    {
        match self {
            ShapeSpec::Cuboid(_, _) => true,
            ShapeSpec::Poly(points, low, high) => is_polygon(points, *low, *high),
        }
    }

    /// The shape that is specified. It takes no memory.
    #[tactic(auto, unfolding(crate::specs::Written::outline_asked))]
    pub fn shape(self) -> Result<Shape, BadShape>
        ensures { result_ok result ≡ outline_asked (written self) }
    {
        match self {
            ShapeSpec::Cuboid(a, b) => Ok(Shape::cuboid(a, b)),
            ShapeSpec::Poly(points, low, high) => Shape::poly(points, low, high),
        }
    }

    /// A copy of the specification. It takes memory for a polygon only.
    pub fn try_clone(&self, alloc: Global) -> Result<ShapeSpec, AllocError>
        ensures { IfOk result (λ copy. written copy ≡ written self.now) }
    {
        match self {
            ShapeSpec::Cuboid(a, b) => Ok(ShapeSpec::Cuboid(*a, *b)),
            ShapeSpec::Poly(points, low, high) => {
                let points = Vec::from_slice(alloc, points)?;
                Ok(ShapeSpec::Poly(points, *low, *high))
            }
        }
    }
}
