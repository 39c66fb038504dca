ghost use Rattle.std.specs.Prelude.{◌≡◌, ◌<◌, ◌≤◌, ◌&&◌, int_le, int_lt};
ghost use Rattle.vx_geom.specs.Sizes.{sector_count};
ghost use Rattle.vx_power.specs.Levels.{columns_around, is_in};

use crate::region::Region;
use vx_geom::{Bounds, MAX_COLUMNS_EACH_WAY, Pos};

/// Columns of a world and past its borders: those from `west` up to below `east`, and from `north`
/// up to below `south`.
#[derive(Clone, Copy, Debug)]
pub struct Columns {
    pub west: i32,
    pub east: i32,
    pub north: i32,
    pub south: i32,
}

impl Columns {
    /// All the columns that a world may have.
    pub const EVERYWHERE: Columns = Columns {
        west: 0,
        east: MAX_COLUMNS_EACH_WAY as i32,
        north: 0,
        south: MAX_COLUMNS_EACH_WAY as i32,
    };

    /// The columns of a sector, and those up to so many columns off it.
    pub fn around(bounds: Bounds, sector: u32, off: u32) -> Columns
        requires held { sector < sector_count bounds }
        requires few { off ≤ 64 }
        ensures { result ≡ columns_around bounds sector off }
    {
        let (west, north) = (bounds.west(sector), bounds.north(sector));
        let more = (bounds.span() + off) as i32;
        Columns {
            west: west as i32 - off as i32,
            east: west as i32 + more,
            north: north as i32 - off as i32,
            south: north as i32 + more,
        }
    }

    // Whether a position lies in one of these columns.
    #[tactic(auto, using(vx_base::proofs::Signed::signed))]
    fn has(self, p: Pos) -> bool
        ensures { result ≡ is_in self p }
    {
        is_between(self.west, p.x, self.east) && is_between(self.north, p.z, self.south)
    }
}

impl Region for Columns {
    ghost holds = { is_in };

    fn hold(&self, p: Pos) -> bool {
        self.has(p)
    }
}

/// Whether least <= c < end.
pub fn is_between(least: i32, c: i32, end: i32) -> bool
    ensures { result ≡ (int_le least c && int_lt c end) }
{
    least <= c && c < end
}
