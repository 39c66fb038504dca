//! The patches of a region in a tile: all columns of a cuboid, and for each band of rows those of a
//! polygon from the first to the last.
ghost use Rattle.std.specs.Prelude.{◌≡◌, ◌+◌, ◌<◌, ◌≤◌, true, false, option_copied, OnOk};
ghost use Rattle.vx_geom.specs.Extent.{extent_of, is_within, meets};
ghost use Rattle.vx_geom.specs.declared.bounds.TheConstants.{MAX_COLUMNS_EACH_WAY};
ghost use Rattle.vx_geom.specs.declared.pos.Pos.{Pos};
ghost use Rattle.vx_index.specs.Patches.{square, row_of_square, band_of_square, is_in_any, HoldsThere, Adds, AddsAny};

use crate::cut::Cut;
use crate::patch::Patch;
use std::alloc::AllocError;
use vx_geom::Extent;

/// How many columns a side of a tile has.
pub(crate) const SIDE: u32 = 32;

/// So many rows of a polygon have one patch. With one for each row a tile has several times the
/// patches, and each question at a place goes over all of them.
pub(crate) const BAND: u32 = 8;

/// The columns of the tile that begins at `west` and `north`.
pub(crate) fn square(west: u32, north: u32) -> Extent
    requires west { west ≤ MAX_COLUMNS_EACH_WAY }
    requires north { north ≤ MAX_COLUMNS_EACH_WAY }
    ensures { result ≡ square west north }
{
    Extent {
        west: west as i32,
        east: (west + SIDE - 1) as i32,
        north: north as i32,
        south: (north + SIDE - 1) as i32,
    }
}

/// Adds the patches of a shape, if there is one, in the tile that begins at `west` and `north`.
pub(crate) fn add_any(
    patches: &mut Vec<Patch>,
    number: u32,
    shape: Option<&Cut>,
    west: u32,
    north: u32,
) -> Result<(), AllocError>
    requires west { west ≤ MAX_COLUMNS_EACH_WAY }
    requires north { north ≤ MAX_COLUMNS_EACH_WAY }
    ensures { OnOk result (AddsAny number (option_copied shape.entry) (square west north)
        patches.old.items patches.new.items) }
{
    let Some(shape) = shape else {
        return Ok(());
    };
    add_patches(patches, number, shape, west, north)
}

/// Adds the patches of a shape in the tile that begins at `west` and `north`; none where its
/// columns don't meet the tile's.
pub(crate) fn add_patches(
    patches: &mut Vec<Patch>,
    number: u32,
    shape: &Cut,
    west: u32,
    north: u32,
) -> Result<(), AllocError>
    requires west { west ≤ MAX_COLUMNS_EACH_WAY }
    requires north { north ≤ MAX_COLUMNS_EACH_WAY }
    ensures adds { OnOk result
        (Adds number shape.now (square west north) patches.old.items patches.new.items) }
    ensures apart { meets (extent_of shape.now) (square west north) ≡ false
        → patches.new.items ≡ patches.old.items }
{
    let columns = shape.extent();
    if !columns.meets(&square(west, north)) {
        return Ok(());
    }
    if shape.is_cuboid() {
        patches.push(Patch { number, columns })?;
        return Ok(());
    }
    add_bands(patches, number, shape, west, north)
}

// Adds a patch for each band of rows of the tile in which the shape has columns.
fn add_bands(
    patches: &mut Vec<Patch>,
    number: u32,
    shape: &Cut,
    west: u32,
    north: u32,
) -> Result<(), AllocError>
    requires west { west ≤ MAX_COLUMNS_EACH_WAY }
    requires north { north ≤ MAX_COLUMNS_EACH_WAY }
    ensures { OnOk result
        (Adds number shape.now (square west north) patches.old.items patches.new.items) }
{
    for band in 0..SIDE / BAND {
        if let Some(columns) = band_of(shape, west, north + BAND * band) {
            patches.push(Patch { number, columns })?;
        }
    }
    Ok(())
}

// Columns that hold all that the shape has in the band of rows from z on of a tile.
fn band_of(shape: &Cut, west: u32, z: u32) -> Option<Extent>
    requires west { west ≤ MAX_COLUMNS_EACH_WAY }
    requires rows { z ≤ MAX_COLUMNS_EACH_WAY + 24 }
    ensures { HoldsThere shape.now (band_of_square west z) result }
{
    let mut columns = None;
    for row in z..z + BAND {
        columns = joined(columns, row_of(shape, west, row));
    }
    columns
}

// Columns that hold these and the others.
fn joined(these: Option<Extent>, others: Option<Extent>) -> Option<Extent>
    ensures these { (p : Pos) → is_in_any these p ≡ true → is_in_any result p ≡ true }
    ensures others { (p : Pos) → is_in_any others p ≡ true → is_in_any result p ≡ true }
{
    match (these, others) {
        (Some(these), Some(others)) => Some(spanned(&these, &others)),
        (Some(_), None) => these,
        (None, _) => others,
    }
}

// The columns from the first of both to the last.
fn spanned(these: &Extent, others: &Extent) -> Extent
    ensures these { (p : Pos) → is_within these.now p ≡ true → is_within result p ≡ true }
    ensures others { (p : Pos) → is_within others.now p ≡ true → is_within result p ≡ true }
{
    Extent {
        west: these.west.min(others.west),
        east: these.east.max(others.east),
        north: these.north.min(others.north),
        south: these.south.max(others.south),
    }
}

// The columns of the row z of a tile from the first that the shape has to the last.
fn row_of(shape: &Cut, west: u32, z: u32) -> Option<Extent>
    requires west { west ≤ MAX_COLUMNS_EACH_WAY }
    requires row { z < MAX_COLUMNS_EACH_WAY + 32 }
    ensures { HoldsThere shape.now (row_of_square west z) result }
{
    let row = shape.row(z as i32)?;
    let first = row.west.max(west as i32);
    let last = row.east.min((west + SIDE - 1) as i32);
    if last < first {
        return None;
    }
    Some(Extent {
        west: first,
        east: last,
        north: z as i32,
        south: z as i32,
    })
}
