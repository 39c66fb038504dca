ghost use Rattle.std.specs.Bool.{Decides};
ghost use Rattle.std.specs.Prelude.{◌≡◌, ◌<◌, ◌≤◌, length, map, slice_index_or, IfOk};
ghost use Rattle.vx_cells.specs.Maps.{AreSectors};
ghost use Rattle.vx_cells.specs.SectorCells.{only_air};
ghost use Rattle.vx_windows.specs.Sectors.{with_changes};
ghost use Rattle.vx_record.specs.Settling.{BeganWith};
ghost use Rattle.vx_keeper.specs.Marks.{IsBegun};

use std::alloc::{AllocError, Global};
use std::marker::Model;
use std::mem;
use vx_cells::{Cells, Frozen};
use vx_geom::Bounds;
use vx_policy::Version;
use vx_record::began_with;
use vx_sector::{Fresh, Sector};
use vx_windows::change_all;

/// A world as its windows began: the cells of each sector, and the version that judges them.
#[derive(Drop)]
pub struct Known {
    bounds: Bounds,
    cells: Vec<Cells>,
    version: Version,
}

impl Model for Known {
    ghost use Rattle.vx_cells.specs.Maps.{AreSectors};
    ghost use Rattle.vx_keeper.specs.Marks.{WorldData};

    ghost Value = { WorldData };

    ghost view = { λ a. record {
      map = record { sizes = a.bounds; sectors = a.cells.items };
      version = a.version;
    } };

    ghost invariant = { λ a. AreSectors a.bounds a.cells.items };
}

impl Known {
    /// The world of these sectors, those of a world of this size in order of their numbers.
    pub fn new(bounds: Bounds, cells: Vec<Cells>, version: Version) -> Known
        requires { AreSectors bounds cells.items }
        ensures sizes { result.map.sizes ≡ bounds }
        ensures sectors { result.map.sectors ≡ cells.items }
        ensures version { result.version ≡ version }
    {
        Known {
            bounds,
            cells,
            version,
        }
    }

    /// What holds of every such world: each sector stands in its place.
    pub fn soundness(&self)
        ensures { AreSectors self.now.map.sizes self.now.map.sectors }
    {
        let _ = &self.bounds;
    }

    /// The size of the world.
    pub fn bounds(&self) -> Bounds
        ensures { result ≡ self.now.map.sizes }
    {
        self.bounds
    }

    /// The map as the windows began. Nothing is copied.
    pub fn frozen(&self) -> Frozen<'_>
        ensures { result ≡ self.now.map }
    {
        Frozen::new(self.bounds, &self.cells)
    }

    /// The cells of each sector as its window began, in order, where they stand: none are copied.
    pub fn cells(&self, alloc: Global) -> Result<Vec<&Cells>, AllocError>
        ensures { IfOk result (λ cells. map (λ c. c.now) cells.items ≡ self.now.map.sectors) }
    {
        let mut cells = Vec::with_capacity(alloc, self.cells.len())?;
        for sector in &self.cells {
            cells.push_reserved(sector);
        }
        Ok(cells)
    }

    /// What the sector of that number begins its window with: its cells, judged by the version. The
    /// copies share what these hold.
    pub fn fresh(&self, alloc: Global, at: usize) -> Result<Fresh, AllocError>
        requires { at < length self.now.map.sectors }
        ensures { IfOk result (IsBegun self.now at) }
    {
        let cells = &self.cells[at];
        Fresh::new(alloc, cells.bounds(), cells.sector(), cells, &self.version)
    }

    /// The version that judges the windows.
    pub fn version(&self) -> &Version
        ensures { result.now ≡ self.now.version }
    {
        &self.version
    }

    /// The version that judges the windows, without the map.
    pub fn into_version(self) -> Version
        ensures { result ≡ self.version }
    {
        self.version
    }

    /// Whether the window of a sector began with the cells of the sector of that number, and is
    /// judged by that version. They are compared one by one.
    pub fn has(&self, at: usize, sector: &Sector) -> bool
        requires { at < length self.now.map.sectors }
        ensures { Decides result (BeganWith sector.now
            (slice_index_or self.now.map.sectors at (only_air self.now.map.sizes at))
            self.now.version) }
    {
        began_with(sector, &self.cells[at], &self.version)
    }

    /// Goes on to the world as the next windows begin, with these cells in the place of those that
    /// changed, judged by this version, and hands out the version before, as a record keeps it:
    /// without the chart of its policy. It takes no memory.
    pub fn go_on(&mut self, changes: Vec<Option<Cells>>, version: Version) -> Version
        requires each { length changes.items ≤ length self.old.map.sectors }
        requires placed { AreSectors self.old.map.sizes
            (with_changes self.old.map.sectors changes.items) }
        ensures map { self.new.map ≡ record {
          sizes = self.old.map.sizes;
          sectors = with_changes self.old.map.sectors changes.items;
        } }
        ensures version { self.new.version ≡ version }
        ensures was { result ≡ self.old.version }
    {
        change_all(&mut self.cells, changes);
        mem::replace(&mut self.version, version).without_chart()
    }
}
