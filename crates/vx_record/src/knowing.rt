//! Whether a sector is what is known of it.
ghost use Rattle.std.specs.Bool.{Decides};
ghost use Rattle.vx_record.specs.Settling.{BeganWith, Follows};

use crate::opening::Opening;
use crate::seated::are_seated;
use vx_cells::Cells;
use vx_policy::Version;
use vx_sector::Sector;

/// Whether the window of the sector began with these cells and is judged by this version. The cells
/// and the regions of the policy are compared one by one.
pub fn began_with(sector: &Sector, base: &Cells, version: &Version) -> bool
    ensures { Decides result (BeganWith sector.now base.now version.now) }
{
    if sector.version() != version {
        return false;
    }
    sector.base() == base
}

/// Whether the window of the sector follows so many entries, and each of its own was made from a
/// seat of the world that opened so.
pub fn follows(sector: &Sector, closed: u64, opening: &Opening) -> bool
    ensures { Decides result (Follows sector.now closed opening.now.names) }
{
    if sector.closed() != closed {
        return false;
    }
    are_seated(opening, sector.entries())
}
