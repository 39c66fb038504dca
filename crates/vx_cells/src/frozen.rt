ghost use Rattle.std.specs.Int.{w64};
ghost use Rattle.std.specs.Option.{option_copied};
ghost use Rattle.std.specs.Prelude.{◌≡◌, ◌%◌, ◌<◌, ◌≤◌, ◌+ℤ◌, ◌-ℤ◌, FitsSigned, pos, nat_lt, length, map, slice_get, true, None, Some, IfOk, IfSome, SomeIff};
ghost use Rattle.vx_block.specs.Components.{is_dust};
ghost use Rattle.vx_block.specs.Conductors.{conducts};
ghost use Rattle.vx_block.specs.declared.cell.Cell.TheVariants.{Air};
ghost use Rattle.vx_geom.specs.Neighbor.{neighbor};
ghost use Rattle.vx_geom.specs.Sizes.{is_inside, sector_count, sector_of, span};
ghost use Rattle.vx_geom.specs.declared.dir.Dir.TheVariants.{Up, Down};
ghost use Rattle.vx_geom.specs.declared.pos.Pos.{Pos};
ghost use Rattle.vx_cells.specs.Listed.{components_on, devices_on};
ghost use Rattle.vx_cells.specs.MapLaws.{IsFilled};
ghost use Rattle.vx_cells.specs.Nearby.{HasAround, IsAmid, IsBetween};
ghost use Rattle.vx_cells.specs.SectorCells.{holds, cell_at};

use crate::cells::Cells;
use std::alloc::{AllocError, Global};
use std::marker::Model;
use vx_block::Cell;
use vx_geom::{Bounds, Dir, Pos};

/// The map as a tick begins: what stands at each position of the world, and air outside. The
/// sectors are lent to it, and nothing is copied.
// The first sectors stand in one block of memory, and those after them each in a place of its own;
// one of the two has none.
#[derive(Drop)]
pub struct Frozen<'a> {
    bounds: Bounds,
    sectors: &'a [Cells],
    apart: &'a [&'a Cells],
}

impl<'a> Model for Frozen<'a> {
    ghost use Rattle.std.specs.Prelude.{◌++◌, map};
    ghost use Rattle.vx_cells.specs.Maps.{MapData, AreSectors};

    ghost Value = { MapData };

    ghost view = { λ a. record {
      sizes = a.bounds;
      sectors = a.sectors.now ++ map (λ c. c.now) a.apart.now;
    } };

    ghost invariant = { λ a. AreSectors a.bounds
        (a.sectors.now ++ map (λ c. c.now) a.apart.now) };
}

impl<'a> Frozen<'a> {
    ghost use Rattle.vx_cells.specs.Maps.{AreSectors, sector_at, cell_on};

    /// The map of these sectors: those of a world of this size, in order of their numbers.
    pub fn new(bounds: Bounds, sectors: &'a [Cells]) -> Frozen<'a>
        requires { AreSectors bounds sectors.now }
        ensures { result ≡ record { sizes = bounds; sectors = sectors.now } }
    {
        Frozen {
            bounds,
            sectors,
            apart: &[],
        }
    }

    /// The map of these sectors, lent one by one, as where each stands in a place of its own.
    pub fn apart(bounds: Bounds, sectors: &'a [&'a Cells]) -> Frozen<'a>
        requires { AreSectors bounds (map (λ c. c.now) sectors.now) }
        ensures { result ≡ record { sizes = bounds; sectors = map (λ c. c.now) sectors.now } }
    {
        Frozen {
            bounds,
            sectors: &[],
            apart: sectors,
        }
    }

    /// What holds of every map: it has all sectors of its world, each in its place.
    pub fn soundness(&self)
        ensures { AreSectors self.now.sizes self.now.sectors }
    {
        let _ = &self.bounds;
    }

    /// The bounds of the world.
    pub fn bounds(&self) -> Bounds
        ensures { result ≡ self.now.sizes }
    {
        self.bounds
    }

    /// The cell at a position; air outside the world.
    #[tactic(auto, unfolding(crate::specs::Maps::cell_on, vx_geom::specs::Sizes::sector_of))]
    pub fn cell(&self, p: Pos) -> Cell
        ensures { result ≡ cell_on self.now p }
    {
        if self.bounds.inside(p) {
            self.cell_inside(p)
        } else {
            Cell::Air
        }
    }

    /// Whether dust lies at a position.
    #[inline(always)]
    #[tactic(auto, unfolding(crate::specs::Maps::cell_on, vx_geom::specs::Sizes::sector_of))]
    pub fn has_dust(&self, p: Pos) -> bool
        ensures { result ≡ is_dust (cell_on self.now p) }
    {
        self.bounds.inside(p) && self.holding(p).has_dust(p)
    }

    /// Whether a conductor stands at a position.
    #[tactic(auto, unfolding(crate::specs::Maps::cell_on, vx_geom::specs::Sizes::sector_of))]
    pub fn has_conductor(&self, p: Pos) -> bool
        ensures { result ≡ conducts (cell_on self.now p) }
    {
        self.bounds.inside(p) && self.holding(p).has_conductor(p)
    }

    /// The cell at the next position on that side.
    pub fn beside(&self, p: Pos, dir: Dir) -> Cell
        ensures { result ≡ cell_on self.now (neighbor p dir) }
    {
        match self.next(p, dir) {
            Some(next) => self.cell_inside(next),
            None => Cell::Air,
        }
    }

    /// The next position on that side, where the world has one.
    #[inline(always)]
    #[tactic(auto, using(vx_base::proofs::Signed::signed))]
    pub fn next(&self, p: Pos, dir: Dir) -> Option<Pos>
        ensures value { SomeIff result (is_inside self.now.sizes (neighbor p dir) ≡ true)
            (neighbor p dir) }
        ensures outside { result ≡ None → cell_on self.now (neighbor p dir) ≡ Air }
    {
        let (x, y, z) = coordinates_beside(p, dir);
        self.place(x, y, z)
    }

    /// The position over the next one on that side, where the world has one.
    #[inline(always)]
    #[tactic(auto, using(vx_base::proofs::Signed::signed))]
    pub fn next_above(&self, p: Pos, dir: Dir) -> Option<Pos>
        ensures value { let over = neighbor (neighbor p dir) Up in
            SomeIff result (is_inside self.now.sizes over ≡ true) over }
        ensures outside { result ≡ None → cell_on self.now (neighbor (neighbor p dir) Up) ≡ Air }
    {
        let (x, y, z) = coordinates_beside(p, dir);
        self.place(x, y + 1, z)
    }

    /// The position under the next one on that side, where the world has one.
    #[inline(always)]
    #[tactic(auto, using(vx_base::proofs::Signed::signed))]
    pub fn next_below(&self, p: Pos, dir: Dir) -> Option<Pos>
        ensures value { let under = neighbor (neighbor p dir) Down in
            SomeIff result (is_inside self.now.sizes under ≡ true) under }
        ensures outside { result ≡ None → cell_on self.now (neighbor (neighbor p dir) Down) ≡ Air }
    {
        let (x, y, z) = coordinates_beside(p, dir);
        self.place(x, y - 1, z)
    }

    /// The positions of a sector where a component of machines stands, in order. It costs what
    /// stands there.
    pub fn components(&self, alloc: Global, sector: u32) -> Result<Vec<Pos>, AllocError>
        requires { sector < sector_count self.now.sizes }
        ensures { IfOk result (λ found. found.items ≡ components_on self.now sector) }
    {
        self.soundness();
        self.sector_at(sector).components(alloc)
    }

    /// The positions of a sector where a device stands, in order. It costs what stands there.
    pub fn devices(&self, alloc: Global, sector: u32) -> Result<Vec<Pos>, AllocError>
        requires { sector < sector_count self.now.sizes }
        ensures { IfOk result (λ found. found.items ≡ devices_on self.now sector) }
    {
        self.soundness();
        self.sector_at(sector).devices(alloc)
    }

    /// The sector of a position, where the world has one.
    #[inline(always)]
    pub fn sector_of(&self, p: Pos) -> Option<&Cells>
        ensures { option_copied result ≡ sector_at self.now.sectors (sector_of self.now.sizes p) }
    {
        match self.bounds.sector_of(p) {
            Some(number) => Some(self.sector_at(number)),
            None => None,
        }
    }

    /// The sector that holds a position and all that lies close to it, at most one column, one
    /// layer and one row off. `None` at the end of a sector or of the world; no clause says so,
    /// since only costs rest on it.
    #[inline(always)]
    pub fn around(&self, p: Pos) -> Option<&Cells>
        ensures { IfSome result (λ c. HasAround self.now c.now p) }
    {
        self.soundness();
        if !self.bounds.inside(p) || !is_amid(self.bounds, p) {
            return None;
        }
        Some(self.sector_at(self.bounds.sector_holding(p)))
    }

    /// How many components of machines stand on the map. No clause tells the number, since nothing
    /// but costs rests on it.
    pub fn component_count(&self) -> u32 {
        self.soundness();
        let mut count = 0_u32;
        for sector in 0..self.bounds().sectors() {
            count = count.saturating_add(self.sector_at(sector).component_count());
        }
        count
    }

    /// Whether a device stands in a sector. It costs a look at each 4,096 of its cells.
    pub fn has_devices(&self, sector: u32) -> bool
        requires { sector < sector_count self.now.sizes }
        ensures { result ≡ nat_lt 0 (length (devices_on self.now sector)) }
    {
        self.soundness();
        self.sector_at(sector).has_devices()
    }

    /// What holds of every map besides: something stands at each place of it.
    pub fn filling(&self)
        ensures { IsFilled self.now }
    {
        self.soundness();
        for sector in 0..self.bounds().sectors() {
            self.sector_at(sector).soundness();
        }
    }

    // The sector of a number.
    fn sector_at(&self, number: u32) -> &Cells
        requires { number < sector_count self.now.sizes }
        ensures { slice_get self.now.sectors number ≡ Some result.now }
    {
        self.soundness();
        self.sector(number).unwrap()
    }

    // The sector of a number, where there is one.
    fn sector(&self, number: u32) -> Option<&Cells>
        ensures found { IfSome result (λ c. slice_get self.now.sectors number ≡ Some c.now) }
        ensures none { result ≡ None → length self.now.sectors ≤ number }
    {
        let number = number as usize;
        if number < self.sectors.len() {
            return Some(&self.sectors[number]);
        }
        match self.apart.get(number - self.sectors.len()) {
            Some(cells) => Some(*cells),
            None => None,
        }
    }

    // The position with these coordinates, where the world has one.
    fn place(&self, x: i64, y: i64, z: i64) -> Option<Pos>
        ensures value { let p : Pos = record { y = y; z = z; x = x } in
            SomeIff result (is_inside self.now.sizes p ≡ true) p }
        ensures outside { result ≡ None
            → cell_on self.now (record { y = y; z = z; x = x }) ≡ Air }
    {
        self.bounds.position(x, y, z)
    }

    // The cell at a position of the world.
    fn cell_inside(&self, p: Pos) -> Cell
        requires { is_inside self.now.sizes p ≡ true }
        ensures { result ≡ cell_on self.now p }
    {
        self.holding(p).get(p)
    }

    // The sector that holds a position of the world.
    fn holding(&self, p: Pos) -> &Cells
        requires { is_inside self.now.sizes p ≡ true }
        ensures holds { holds result.now p ≡ true }
        ensures cell { cell_at result.now p ≡ cell_on self.now p }
    {
        self.soundness();
        self.sector_at(self.bounds().sector_holding(p))
    }
}

// The coordinates of the next position on that side, which the world may not have. Its rows above
// and below fit, too.
#[inline(always)]
#[tactic(auto, using(vx_base::proofs::Signed::signed))]
fn coordinates_beside(p: Pos, dir: Dir) -> (i64, i64, i64)
    ensures value { record { y = result.1; z = result.2; x = result.0 } ≡ neighbor p dir }
    ensures above { FitsSigned w64 (result.1 +ℤ pos 1) }
    ensures below { FitsSigned w64 (result.1 -ℤ pos 1) }
{
    let (x, y, z) = (i64::from(p.x), i64::from(p.y), i64::from(p.z));
    match dir {
        Dir::East => (x + 1, y, z),
        Dir::West => (x - 1, y, z),
        Dir::Up => (x, y + 1, z),
        Dir::Down => (x, y - 1, z),
        Dir::South => (x, y, z + 1),
        Dir::North => (x, y, z - 1),
    }
}

// Whether a position has others of its sector beside it on each side, and others of the world over
// it and under it.
#[inline(always)]
fn is_amid(bounds: Bounds, p: Pos) -> bool
    ensures { result ≡ true → IsAmid bounds p }
{
    let layer = p.y.unsigned_abs();
    has_beside(bounds, p.x.unsigned_abs())
        && has_beside(bounds, p.z.unsigned_abs())
        && 0 < layer
        && layer + 1 < bounds.height()
}

// Whether a column has others of its sector on both sides.
#[inline(always)]
fn has_beside(bounds: Bounds, column: u32) -> bool
    ensures { result ≡ true → IsBetween (span bounds) column }
{
    let past = past_sides(bounds, column);
    0 < past && past + 1 < bounds.span()
}

// How many columns are left over past whole sides of sectors.
// Each width stands as a number, so that the machine need not divide.
#[inline(always)]
fn past_sides(bounds: Bounds, columns: u32) -> u32
    ensures { result ≡ columns % span bounds }
{
    bounds.soundness();
    if bounds.span() > 16 {
        columns % 32
    } else {
        columns % 16
    }
}
