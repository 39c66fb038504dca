//! Marks where dust has another level than it stores, and what heeds that.
ghost use Rattle.std.specs.Prelude.{◌≡◌, ◌<◌, nat_lt, true, OnOk};
ghost use Rattle.vx_cells.specs.Maps.{cell_on};
ghost use Rattle.vx_levels.specs.Linked.{level_at};
ghost use Rattle.vx_power.specs.Levels.{stored_level};
ghost use Rattle.vx_still.specs.Telling.{AreTold, IsTold, KeepsMarks};
ghost use Rattle.vx_still.specs.Unheeded.{IsKept};

use crate::heeders::mark_heeders;
use crate::kept_dust::KeptDust;
use std::alloc::{AllocError, Global};
use vx_block::Cell;
use vx_cells::Frozen;
use vx_geom::Pos;
use vx_places::Places;
use vx_power::Leveled;

/// Marks those of these positions where dust has another level than it stores, and the devices that
/// heed those where it gained or lost all power. Other dust heeds its own level alone. Dust that is
/// found to be heeded by no device is noted, and passed over from then on.
pub(crate) fn tell_all(
    alloc: Global,
    map: &Frozen<'_>,
    dust: &mut KeptDust,
    places: &mut Places,
    positions: &[Pos],
) -> Result<(), AllocError>
    requires sizes { places.old.sizes ≡ map.now.sizes }
    requires dust { IsKept map.now dust.old }
    ensures sizes { OnOk result (places.new.sizes ≡ places.old.sizes) }
    ensures kept { OnOk result (KeepsMarks places.old places.new) }
    ensures told { OnOk result
        (AreTold map.now (level_at dust.old.levels) places.new positions.now) }
    ensures levels { OnOk result (dust.new.levels ≡ dust.old.levels) }
    ensures dust { OnOk result (IsKept map.now dust.new) }
{
    for p in positions {
        tell(alloc, map, dust, places, *p)?;
    }
    Ok(())
}

// Does so at one position.
fn tell(
    alloc: Global,
    map: &Frozen<'_>,
    dust: &mut KeptDust,
    places: &mut Places,
    p: Pos,
) -> Result<(), AllocError>
    requires sizes { places.old.sizes ≡ map.now.sizes }
    requires dust { IsKept map.now dust.old }
    ensures sizes { OnOk result (places.new.sizes ≡ places.old.sizes) }
    ensures kept { OnOk result (KeepsMarks places.old places.new) }
    ensures told { OnOk result (IsTold map.now (level_at dust.old.levels) places.new p) }
    ensures levels { OnOk result (dust.new.levels ≡ dust.old.levels) }
    ensures dust { OnOk result (IsKept map.now dust.new) }
{
    let level = dust.levels.at(p);
    let stored = stored_level(map.cell(p));
    if level == stored {
        return Ok(());
    }
    places.mark(alloc, p)?;
    if have_same_power(level, stored) {
        return Ok(());
    }
    if dust.unheeded.has(p) {
        return Ok(());
    }
    if !mark_heeders(alloc, map, places, p)? {
        dust.unheeded.mark(alloc, p)?;
    }
    Ok(())
}

// Whether both levels are over 0, or both are 0.
fn have_same_power(a: u8, b: u8) -> bool
    ensures { result ≡ true → nat_lt 0 a ≡ nat_lt 0 b }
{
    (0 < a) == (0 < b)
}

// The level that dust stores; 0 of another cell.
fn stored_level(cell: Cell) -> u8
    ensures value { result ≡ stored_level cell }
    ensures most { result < 16 }
{
    match cell {
        Cell::Dust(level) => level.value(),
        _ => 0,
    }
}
