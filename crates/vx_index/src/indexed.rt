ghost use Rattle.std.specs.Prelude.{◌≡◌, ◌<◌, true, IfOk, IfSome};
ghost use Rattle.vx_geom.specs.Sizes.{sector_count};
ghost use Rattle.std.specs.List.{All};
ghost use Rattle.vx_geom.specs.Extent.{is_within};
ghost use Rattle.vx_index.specs.Tiles.{IsTile};

use crate::tile::Tile;
use std::alloc::{AllocError, Global};
use std::marker::Model;
use vx_decide::{Asker, Decide, Plain, Verdict};
use vx_flag::Action;
use vx_geom::{Bounds, Pos};
use vx_region::{RegionSet, Subject};

/// The policy of a set of regions, asked of those near the place: for each sector of a world, the
/// regions that lie in it. Outside the world all are walked.
#[derive(Drop)]
pub struct Indexed<'a> {
    regions: &'a RegionSet,
    bounds: Bounds,
    // Sector by sector: each lies in one tile.
    tiles: Vec<Tile>,
}

impl<'a> Model for Indexed<'a> {
    ghost use Rattle.std.specs.List.{All};
    ghost use Rattle.vx_region.specs.Regions.{Regions};
    ghost use Rattle.vx_index.specs.Tiles.{IsTile};

    ghost Value = { Regions };

    ghost view = { λ a. a.regions.now };

    ghost invariant = { λ a. All (IsTile a.regions.now) a.tiles.items };
}

impl<'a> Indexed<'a> {
    /// The index of these regions in a world of this size. It costs a look at each region for each
    /// sector.
    pub fn build(
        alloc: Global,
        regions: &'a RegionSet,
        bounds: Bounds,
    ) -> Result<Indexed<'a>, AllocError>
        ensures { IfOk result (λ indexed. indexed ≡ regions.now) }
    {
        let mut tiles = Vec::new(alloc);
        for sector in 0..bounds.sectors() {
            tiles.push(tile_of(alloc, regions, &bounds, sector)?)?;
        }
        Ok(Indexed {
            regions,
            bounds,
            tiles,
        })
    }

    /// The allocator of the index.
    pub(crate) fn allocator(&self) -> Global {
        *self.tiles.allocator()
    }

    // The subject as one who asks of the regions. Where it is a machine its hosts are those of the
    // tile in which it stands; outside the world they are all.
    fn asker<'b>(&'b self, subject: &'b Subject) -> Asker<'b>
        ensures regions { result.regions.now ≡ self.now }
        ensures subject { result.subject.now ≡ subject.now }
    {
        let Subject::Machine(place) = subject else {
            return Asker::new(self.regions, subject);
        };
        match self.tile_at(*place) {
            Some(tile) => tile.asker(self.regions, subject),
            None => Asker::new(self.regions, subject),
        }
    }

    // The tile that holds the position.
    fn tile_at(&self, p: Pos) -> Option<&Tile>
        ensures of { IfSome result (λ tile. IsTile self.now tile.now) }
        ensures within { IfSome result (λ tile. is_within tile.now.columns p ≡ true) }
    {
        let sector = self.bounds.sector_of(p)?;
        let tile = self.tiles.get(sector as usize)?;
        if !tile.holds(p) {
            return None;
        }
        Some(tile)
    }
}

impl Decide for Indexed<'_> {
    ghost policy = { λ a. a };

    fn decide(&self, subject: &Subject, action: Action, p: Pos) -> Verdict {
        match self.tile_at(p) {
            Some(tile) => tile.decide(&self.asker(subject), &[], action, p),
            None => Plain::new(self.regions).decide(subject, action, p),
        }
    }
}

// The tile that begins where a sector begins.
fn tile_of(
    alloc: Global,
    regions: &RegionSet,
    bounds: &Bounds,
    sector: u32,
) -> Result<Tile, AllocError>
    requires { sector < sector_count bounds.now }
    ensures { IfOk result (IsTile regions.now) }
{
    bounds.soundness();
    Tile::new(alloc, regions, bounds.west(sector), bounds.north(sector))
}
