ghost use Rattle.std.specs.Prelude.{◌≡◌, IfOk, IfSome, option_copied};
ghost use Rattle.std.specs.List.{All};
ghost use Rattle.vx_geom.specs.Extent.{extent_of};
ghost use Rattle.vx_geom.specs.Outline.{is_cuboid};
ghost use Rattle.vx_geom.specs.Row.{row_of};
ghost use Rattle.vx_index.specs.Cuts.{IsRowOf};

use crate::patches::SIDE;
use std::alloc::{AllocError, Global};
use std::marker::Model;
use vx_geom::{Extent, Shape};

/// So many rows are told at once: those of a tile.
const ROWS: usize = SIDE as usize;

/// A shape, and the columns that it has in some rows, told once for all tiles along these.
/// Contracts see it as the shape.
#[derive(Drop)]
pub(crate) struct Cut<'a> {
    shape: &'a Shape,
    extent: Extent,
    // With the z of each row. Only costs rest on where a row stands.
    rows: Vec<(i32, Option<Extent>)>,
}

impl<'a> Model for Cut<'a> {
    ghost use Rattle.std.specs.Prelude.{◌≡◌};
    ghost use Rattle.std.specs.List.{All};
    ghost use Rattle.vx_geom.specs.Extent.{extent_of};
    ghost use Rattle.vx_geom.specs.Outline.{Outline};
    ghost use Rattle.vx_index.specs.Cuts.{IsRowOf};

    ghost Value = { Outline };

    ghost view = { λ a. a.shape.now };

    ghost invariant = { λ a. (a.extent ≡ extent_of a.shape.now)
        × All (IsRowOf a.shape.now) a.rows.items };
}

impl<'a> Cut<'a> {
    /// The shape, of which no row is told yet.
    pub(crate) fn of(alloc: Global, shape: &'a Shape) -> Cut<'a>
        ensures { result ≡ shape.now }
    {
        Cut {
            shape,
            extent: shape.extent(),
            rows: Vec::new(alloc),
        }
    }

    /// The shape, and where it is a polygon the rows of the tiles that begin so far from the north.
    /// Those of a polygon take memory.
    pub(crate) fn along(alloc: Global, shape: &'a Shape, north: i32) -> Result<Cut<'a>, AllocError>
        ensures { IfOk result (λ cut. cut ≡ shape.now) }
    {
        if shape.is_cuboid() {
            return Ok(Cut::of(alloc, shape));
        }
        Ok(Cut {
            shape,
            extent: shape.extent(),
            rows: rows_from(alloc, shape, north)?,
        })
    }

    /// The columns that the shape lies in.
    pub(crate) fn extent(&self) -> Extent
        ensures { result ≡ extent_of self.now }
    {
        self.extent
    }

    /// Whether the shape is a cuboid.
    pub(crate) fn is_cuboid(&self) -> bool
        ensures { result ≡ is_cuboid self.now }
    {
        self.shape.is_cuboid()
    }

    /// The columns of the row at `z`, as `Shape::row` tells them.
    pub(crate) fn row(&self, z: i32) -> Option<Extent>
        ensures { result ≡ row_of self.now z }
    {
        match self.rows.get(z.unsigned_abs() as usize % ROWS) {
            Some((at, row)) if *at == z => *row,
            _ => self.shape.row(z),
        }
    }
}

// The rows of a shape from so far from the north on.
fn rows_from(
    alloc: Global,
    shape: &Shape,
    north: i32,
) -> Result<Vec<(i32, Option<Extent>)>, AllocError>
    ensures { IfOk result (λ rows. All (IsRowOf shape.now) rows.items) }
{
    let mut rows = Vec::with_capacity(alloc, ROWS)?;
    for z in north..north.saturating_add(SIDE as i32) {
        rows.push((z, shape.row(z)))?;
    }
    Ok(rows)
}

/// The shape, if there is one, with the rows of the tiles that begin so far from the north.
pub(crate) fn cut_along<'a>(
    alloc: Global,
    shape: Option<&'a Shape>,
    north: i32,
) -> Result<Option<Cut<'a>>, AllocError>
    ensures { IfOk result (λ cut. cut ≡ option_copied shape.entry) }
{
    let Some(shape) = shape else {
        return Ok(None);
    };
    Ok(Some(Cut::along(alloc, shape, north)?))
}
