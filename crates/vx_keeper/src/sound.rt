ghost use Rattle.std.specs.List.{All};
ghost use Rattle.vx_sector.specs.Windows.{IsSector};

use vx_sector::Sector;

/// What holds of all sectors: the entries of each are a window over its base, its cells are what
/// they leave, and it has no more of them than it may. It costs a look at each.
pub fn are_sectors(sectors: &[Sector])
    ensures { All IsSector sectors.now }
{
    for sector in sectors {
        is_sector(sector);
    }
}

/// What holds of one sector.
pub fn is_sector(sector: &Sector)
    ensures { IsSector sector.now }
{
    let _cells = sector.cells();
    let _window = sector.entries();
    let _count = sector.count();
}
