//! The land of a policy after an edit, made of the land before it.
ghost use Rattle.std.specs.Prelude.{◌≡◌, None, IfOk};
ghost use Rattle.vx_index.specs.Lands.{IsLandOf};
ghost use Rattle.vx_index.specs.Shapes.{shape_at};
ghost use Rattle.vx_policy.specs.Asked.{asked};
ghost use Rattle.vx_policy.specs.Edits.{edited};
ghost use Rattle.vx_policy.specs.Refusals.{refusal};

use crate::edit::Edit;
use crate::reshaped::{reshaped, shape_after};
use std::alloc::{AllocError, Global};
use vx_index::Land;
use vx_region::RegionSet;

/// The land of the regions after an edit that nothing stands against, where this is the land of
/// those before it. Where no shape changes it is shared, else only the tiles take memory in which
/// the region lies before or after.
pub(crate) fn land_after(
    alloc: Global,
    land: &Land,
    regions: &RegionSet,
    edit: &Edit,
) -> Result<Land, AllocError>
    requires land { IsLandOf (shape_at regions.now) land.now }
    requires free { refusal regions.now (asked edit.now) ≡ None }
    ensures { IfOk result (IsLandOf (shape_at (edited regions.now (asked edit.now)))) }
{
    let Some(number) = reshaped(regions, edit) else {
        return land.try_clone();
    };
    match shape_after(alloc, edit)? {
        Some(shape) => land.put(alloc, regions, number, &shape),
        None => land.without(alloc, regions, number),
    }
}
