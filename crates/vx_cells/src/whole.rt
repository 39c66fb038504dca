ghost use Rattle.std.specs.Prelude.{◌≡◌, Some, None, true, false, Ok, IfOk, OnOk};
ghost use Rattle.vx_geom.specs.Sizes.{AreSizes, sector_count};
ghost use Rattle.vx_cells.specs.Wholes.{airs, bare, with_cell_on, IsMap};

use crate::cells::Cells;
use crate::frozen::Frozen;
use crate::puts::{set, set_all};
use std::alloc::{AllocError, Global};
use std::marker::Model;
use vx_block::Cell;
use vx_geom::{Bounds, Pos};

/// The whole map of a world, with its sectors, each in its place.
pub struct Whole {
    bounds: Bounds,
    sectors: Vec<Cells>,
}

impl Model for Whole {
    ghost use Rattle.vx_cells.specs.Maps.{MapData, AreSectors};

    ghost Value = { MapData };

    ghost view = { λ a. record { sizes = a.bounds; sectors = a.sectors.items } };

    ghost invariant = { λ a. AreSectors a.bounds a.sectors.items };
}

// Written out, so that what is above this crate need not prove how its parts are let go.
impl Drop for Whole {
    fn drop(self) {
        let Whole {
            bounds: _,
            sectors: _sectors,
        } = self;
    }
}

impl Whole {
    ghost use Rattle.std.specs.Prelude.{◌≢◌};
    ghost use Rattle.vx_cells.specs.MapLaws.{IsFilled};
    ghost use Rattle.vx_cells.specs.Maps.{AreSectors};
    ghost use Rattle.vx_cells.specs.Wholes.{with_cells_on};

    /// A world of this size with nothing but air.
    pub fn new(alloc: Global, bounds: Bounds) -> Result<Whole, AllocError>
        ensures { IfOk result (λ whole. whole ≡ bare bounds) }
    {
        Ok(Whole {
            bounds,
            sectors: all_air(alloc, bounds)?,
        })
    }

    /// The whole map of these sectors: those of a world of this size, in order of their numbers.
    pub fn from_parts(bounds: Bounds, sectors: Vec<Cells>) -> Whole
        requires { AreSectors bounds sectors.items }
        ensures { result ≡ record { sizes = bounds; sectors = sectors.items } }
    {
        Whole { bounds, sectors }
    }

    /// A copy of the map.
    pub fn try_clone(&self) -> Result<Whole, AllocError>
        ensures { IfOk result (λ copy. copy ≡ self.now) }
    {
        let mut sectors = Vec::new(*self.sectors.allocator());
        for cells in &self.sectors {
            sectors.push(cells.try_clone()?)?;
        }
        Ok(Whole {
            bounds: self.bounds,
            sectors,
        })
    }

    /// Puts a cell down at a position, in place of what was there before; a chest begins empty.
    /// `Ok(false)` outside the world.
    pub fn set(&mut self, p: Pos, cell: Cell) -> Result<bool, AllocError>
        ensures set { result ≡ Ok true → with_cell_on self.old p cell ≡ Some self.new }
        ensures outside { result ≡ Ok false → with_cell_on self.old p cell ≡ None }
        ensures kept { result ≢ Ok true → self.new ≡ self.old }
    {
        set(self.bounds, &mut self.sectors, p, cell)
    }

    /// Puts these cells down one after another, and leaves out those outside the world. Where
    /// memory is wanted, the first of them may be put down.
    pub fn set_all(&mut self, cells: &[(Pos, Cell)]) -> Result<(), AllocError>
        ensures { OnOk result (self.new ≡ with_cells_on self.old cells.now) }
    {
        set_all(self.bounds, &mut self.sectors, cells)
    }

    /// The map as it stands. Nothing is copied.
    pub fn frozen(&self) -> Frozen<'_>
        ensures { result ≡ self.now }
    {
        Frozen::new(self.bounds, &self.sectors)
    }

    /// What holds of all maps: each sector stands in its place, with something at each place of it.
    pub fn soundness(&self)
        ensures { IsFilled self.now }
    {
        for cells in &self.sectors {
            cells.soundness();
        }
    }

    /// The bounds of the world.
    pub fn bounds(&self) -> Bounds
        ensures { result ≡ self.now.sizes }
    {
        self.bounds
    }

    /// The sectors in order of their numbers.
    pub fn sectors(&self) -> &[Cells]
        ensures { result.now ≡ self.now.sectors }
    {
        &self.sectors
    }

    /// The size of the world and its sectors in order. It takes no memory.
    pub fn into_parts(self) -> (Bounds, Vec<Cells>)
        ensures bounds { result.0 ≡ self.sizes }
        ensures sectors { result.1.items ≡ self.sectors }
        ensures whole { IsMap self }
    {
        let Whole { bounds, sectors } = self;
        (bounds, sectors)
    }
}

// The sectors of a world of this size, with nothing but air.
fn all_air(alloc: Global, bounds: Bounds) -> Result<Vec<Cells>, AllocError>
    ensures cells { IfOk result (λ sectors. sectors.items ≡ airs bounds (sector_count bounds)) }
    ensures valid { AreSizes bounds }
{
    bounds.soundness();
    let mut sectors = Vec::new(alloc);
    for number in 0..bounds.sectors() {
        sectors.push(Cells::new(alloc, bounds, number)?)?;
    }
    Ok(sectors)
}
