//! How many windows have entries.
ghost use Rattle.std.specs.Prelude.{◌≡◌, map};
ghost use Rattle.vx_sector.specs.SectorData.{entry_of};
ghost use Rattle.vx_windows.specs.Sectors.{entries_in, entries_of};
ghost use Rattle.vx_record.specs.Kept.{busy_count, is_busy};

use vx_sector::{Entry, Sector};

/// How many of these windows have entries.
pub fn busy_windows(windows: &[Vec<Entry>]) -> usize
    ensures { result ≡ busy_count (map entries_in windows.now) }
{
    windows.iter().filter(|window| is_busy(window)).count()
}

/// How many of these sectors have entries in their windows.
pub fn busy_sectors(sectors: &[Sector]) -> usize
    ensures { result ≡ busy_count (map entries_of sectors.now) }
{
    sectors
        .iter()
        .filter(|sector| is_busy(sector.entries()))
        .count()
}

// Whether a window has entries.
fn is_busy(window: &[Entry]) -> bool
    ensures { result ≡ is_busy (map entry_of window.now) }
{
    match window {
        [] => false,
        [_, ..] => true,
    }
}
