//! The places of a sector that are marked, in order.
ghost use Rattle.std.specs.Prelude.{◌≡◌, ◌*◌, ◌<◌, length, IfOk};
ghost use Rattle.vx_geom.specs.Sizes.{sector_count, sector_cells};
ghost use Rattle.vx_store.specs.MarkedPlaces.{marked_places};

use crate::in_order::InOrder;
use std::alloc::{AllocError, Global};
use vx_geom::{Bounds, Pos};
use vx_marks::Marks;

/// The positions of a sector whose indices are marked, in order. It costs what is marked, and a
/// look at each 4,096 of its cells.
pub fn marked_places(
    alloc: Global,
    bounds: Bounds,
    sector: u32,
    marks: &Marks,
) -> Result<Vec<Pos>, AllocError>
    requires sector { sector < sector_count bounds }
    requires room { 64 * length marks.now ≡ sector_cells bounds }
    ensures { IfOk result (λ found. found.items ≡ marked_places bounds sector marks.now) }
{
    places_in_order(alloc, bounds, sector, marks)
}

// Few places are marked in most sectors: there is room for so many at once.
const FIRST_ROOM: usize = 64;

/// The positions of a sector whose indices are marked, by whatever finds its marks in order. It
/// costs what is marked, and what it takes to pass over the rest.
pub fn places_in_order<M: InOrder>(
    alloc: Global,
    bounds: Bounds,
    sector: u32,
    marks: &M,
) -> Result<Vec<Pos>, AllocError>
    requires sector { sector < sector_count bounds }
    requires room { 64 * length (M.words marks.now) ≡ sector_cells bounds }
    ensures { IfOk result (λ found.
        found.items ≡ marked_places bounds sector (M.words marks.now)) }
{
    bounds.soundness();
    if marks.next_from(0).is_none() {
        return Ok(Vec::new(alloc));
    }
    let mut found = Vec::with_capacity(alloc, FIRST_ROOM)?;
    let mut from = 0;
    while let Some(index) = marks.next_from(from) {
        let Ok(()) = found.push(bounds.position_in_sector(sector, index)) else {
            return Err(AllocError);
        };
        from = index + 1;
    }
    Ok(found)
}
