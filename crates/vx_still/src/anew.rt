//! What is kept of the dust of a map of which nothing is known.
ghost use Rattle.std.specs.Prelude.{◌≡◌, true, IfOk};
ghost use Rattle.vx_block.specs.Components.{is_component};
ghost use Rattle.vx_cells.specs.Maps.{cell_on};
ghost use Rattle.vx_geom.specs.declared.pos.Pos.{Pos};
ghost use Rattle.vx_power.specs.Levels.{has};
ghost use Rattle.vx_still.specs.Unheeded.{IsKept};

use crate::kept_dust::KeptDust;
use std::alloc::{AllocError, Global};
use vx_cells::Frozen;
use vx_geom::Pos;
use vx_levels::all_linked;
use vx_places::Places;

/// What is to be kept of the dust of a map: its levels and links, and of none that no device heeds
/// it. It costs a look at each component.
pub fn linked_anew(alloc: Global, map: &Frozen<'_>) -> Result<KeptDust, AllocError>
    ensures { IfOk result (IsKept map.now) }
{
    let places = components(alloc, map)?;
    Ok(KeptDust {
        levels: all_linked(alloc, map, places.as_slice())?,
        unheeded: Places::new(alloc, map.bounds()),
        components: places.len(),
    })
}

// The positions of all components of a map.
fn components(alloc: Global, map: &Frozen<'_>) -> Result<Vec<Pos>, AllocError>
    ensures { IfOk result (λ found. (p : Pos) → is_component (cell_on map.now p) ≡ true
        → has found.items p ≡ true) }
{
    map.soundness();
    let mut found = Vec::new(alloc);
    for sector in 0..map.bounds().sectors() {
        let mut here = map.components(alloc, sector)?;
        found.append(&mut here)?;
    }
    Ok(found)
}
