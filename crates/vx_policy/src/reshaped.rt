//! What an edit changes of the shapes of the regions.
ghost use Rattle.std.specs.Prelude.{◌≡◌, None, option_map, IfOk, IfSome};
ghost use Rattle.vx_geom.specs.Written.{written, outline_asked};
ghost use Rattle.vx_index.specs.Shapes.{shape_at};
ghost use Rattle.vx_policy.specs.Asked.{asked};
ghost use Rattle.vx_policy.specs.Edits.{edited};
ghost use Rattle.vx_policy.specs.Outlines.{ShapesStayBut, shape_given};
ghost use Rattle.vx_policy.specs.Refusals.{numbered, refusal};

use crate::edit::Edit;
use std::alloc::{AllocError, Global};
use vx_geom::{Shape, ShapeSpec};
use vx_region::{Id, RegionNo, RegionSet};

/// The number of the region whose shape an edit that nothing stands against changes, or that it
/// defines or removes; `None` where all shapes stay.
pub(crate) fn reshaped(regions: &RegionSet, edit: &Edit) -> Option<RegionNo>
    requires { refusal regions.now (asked edit.now) ≡ None }
    ensures others { ShapesStayBut (option_map (λ n. n.0) result)
        regions.now (edited regions.now (asked edit.now)) }
    ensures this { IfSome result (λ n. shape_at (edited regions.now (asked edit.now)) n.0
        ≡ shape_given (asked edit.now)) }
{
    regions.soundness();
    match edit {
        Edit::Define(_, _) => Some(RegionNo(regions.last() + 1)),
        Edit::Reshape(id, _) => number_by_id(regions, id),
        Edit::Remove(id) => number_by_id(regions, id),
        _ => None,
    }
}

/// The shape that an edit gives a region, if it gives one.
pub(crate) fn shape_after(alloc: Global, edit: &Edit) -> Result<Option<Shape>, AllocError>
    ensures { IfOk result (λ shape. shape ≡ shape_given (asked edit.now)) }
{
    match edit {
        Edit::Define(_, shape) => shape_of(alloc, shape),
        Edit::Reshape(_, shape) => shape_of(alloc, shape),
        _ => Ok(None),
    }
}

/// The shape that is specified, if it is one. It takes memory for a polygon only.
pub(crate) fn shape_of(alloc: Global, shape: &ShapeSpec) -> Result<Option<Shape>, AllocError>
    ensures { IfOk result (λ made. made ≡ outline_asked (written shape.now)) }
{
    Ok(shape.try_clone(alloc)?.shape().ok())
}

// The number of the region whose id the text spells, 0 for the world at large.
fn number_by_id(regions: &RegionSet, id: &str) -> Option<RegionNo>
    ensures { option_map (λ n. n.0) result ≡ numbered regions.now id.now }
{
    let Ok(id) = Id::read(id) else {
        return None;
    };
    regions.find(&id)
}
