//! What stands near changes.
ghost use Rattle.std.specs.Prelude.{◌≡◌, ◌≤◌, ◌&&◌, ◌||◌, IfOk, OnOk};
ghost use Rattle.std.specs.List.{list_any};
ghost use Rattle.vx_cells.specs.Maps.{cell_on};
ghost use Rattle.vx_geom.specs.declared.pos.Pos.{Pos};
ghost use Rattle.vx_geom.specs.Sizes.{is_inside};
ghost use Rattle.vx_places.specs.Around.{is_kind_around};
ghost use Rattle.vx_places.specs.Places.{is_at};
ghost use Rattle.vx_power.specs.Levels.{has};
ghost use Rattle.vx_store.specs.declared.mark_kind.MarkKind.TheVariants.{Component};

use std::alloc::{AllocError, Global};
use vx_cells::Frozen;
use vx_geom::Pos;
use vx_places::Places;
use vx_store::MarkKind;

// So far dust sees cells.
const SIGHT: u8 = 2;

/// The components from which one of these positions can be seen as dust sees.
pub(crate) fn in_sight(
    alloc: Global,
    map: &Frozen<'_>,
    changed: &[Pos],
) -> Result<Vec<Pos>, AllocError>
    ensures { IfOk result (λ seen. (p : Pos) → has seen.items p ≡ (is_inside map.now.sizes p
        && list_any (λ c. is_kind_around Component (cell_on map.now) c 2 p) changed.now)) }
{
    if changed.is_empty() {
        return Ok(Vec::new(alloc));
    }
    let mut places = Places::new(alloc, map.bounds());
    mark_around_all(alloc, map, &mut places, changed, SIGHT, MarkKind::Component)?;
    places.all(alloc)
}

/// Adds each place of a map to which at most so many steps lead from one of these positions, and at
/// which something of that kind stands.
pub(crate) fn mark_around_all(
    alloc: Global,
    map: &Frozen<'_>,
    places: &mut Places,
    centers: &[Pos],
    steps: u8,
    kind: MarkKind,
) -> Result<(), AllocError>
    requires { steps ≤ 8 }
    ensures sizes { places.new.sizes ≡ places.old.sizes }
    ensures marked { OnOk result ((p : Pos) → is_at places.new p
        ≡ (is_at places.old p || (is_inside places.old.sizes p
        && list_any (λ c. is_kind_around kind (cell_on map.now) c steps p) centers.now))) }
{
    for center in centers {
        places.mark_around(alloc, map, *center, steps, kind)?;
    }
    Ok(())
}
