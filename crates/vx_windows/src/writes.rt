//! Where the commands of the windows have left other cells.
ghost use Rattle.std.specs.Prelude.{◌≡◌, false, map, IfOk, OnOk};
ghost use Rattle.std.specs.List.{All};
ghost use Rattle.vx_geom.specs.declared.pos.Pos.{Pos};
ghost use Rattle.vx_power.specs.Levels.{has};
ghost use Rattle.vx_sector.specs.SectorData.{entry_of};
ghost use Rattle.vx_sector.specs.Windows.{HoldsPlaces};
ghost use Rattle.vx_windows.specs.Writing.{AreSpared, IsSpared};

use std::alloc::{AllocError, Global};
use vx_cells::{Cells, is_same};
use vx_geom::Pos;
use vx_sector::{Entry, Sector};

/// The positions at which the commands of the windows have left another cell. It costs what was
/// recorded.
pub fn written(alloc: Global, sectors: &[Sector]) -> Result<Vec<Pos>, AllocError>
    ensures { IfOk result (λ places. (p : Pos) → has places.items p ≡ false
        → All (IsSpared p) sectors.now) }
{
    let mut places = Vec::new(alloc);
    for sector in sectors {
        add_written(&mut places, sector)?;
    }
    Ok(places)
}

// Adds those of one sector.
fn add_written(places: &mut Vec<Pos>, sector: &Sector) -> Result<(), AllocError>
    ensures { OnOk result ((p : Pos) → has places.new.items p ≡ false
        → (has places.old.items p ≡ false) × IsSpared p sector.now) }
{
    sector.cells().bounds().soundness();
    sector.base().soundness();
    add_changed(places, sector.base(), sector.cells(), sector.entries())
}

// Adds the places of these entries at which another cell stands than did.
fn add_changed(
    places: &mut Vec<Pos>,
    base: &Cells,
    cells: &Cells,
    entries: &[Entry],
) -> Result<(), AllocError>
    requires base { HoldsPlaces base.now (map entry_of entries.now) }
    requires cells { HoldsPlaces cells.now (map entry_of entries.now) }
    ensures { OnOk result ((p : Pos) → has places.new.items p ≡ false
        → (has places.old.items p ≡ false)
        × AreSpared p base.now cells.now (map entry_of entries.now)) }
{
    for entry in entries {
        let p = entry.cmd.place();
        if !is_same(&cells.get(p), &base.get(p)) {
            places.push(p)?;
        }
    }
    Ok(())
}
