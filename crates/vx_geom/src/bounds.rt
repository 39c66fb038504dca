ghost use Rattle.std.specs.Prelude.{◌≡◌, ◌+◌, ◌*◌, ◌/◌, ◌%◌, ◌<◌, ◌≤◌, true, SomeIff};
ghost use Rattle.vx_geom.specs.Sizes.{is_below};
ghost use Rattle.vx_geom.specs.declared.bounds.TheConstants.{HIGH_HEIGHT, MAX_COLUMNS_EACH_WAY};
ghost use Rattle.vx_geom.specs.declared.pos.Pos.{Pos};

use crate::pos::Pos;
use std::marker::Model;

/// A world has at most so many sectors from west to east, and as many from north to south.
pub const MAX_SECTORS_EACH_WAY: u8 = 16;

/// A sector has at most so many chunks each way.
pub const MAX_CHUNKS_EACH_WAY: u8 = 2;

/// A low world is so many cells high.
pub const LOW_HEIGHT: u8 = 64;

/// A high world is so many cells high; no world is higher.
pub const HIGH_HEIGHT: u8 = 128;

/// The widest world has so many columns from west to east, and as many from north to south.
pub const MAX_COLUMNS_EACH_WAY: u32 = 16 * MAX_CHUNKS_EACH_WAY as u32 * MAX_SECTORS_EACH_WAY as u32;

/// The box of a world, divided into sectors of whole chunks.
#[derive(Clone, Copy, Debug, PartialEq, Eq)]
pub struct Bounds {
    sx: u8,
    sz: u8,
    s: u8,
    h: u8,
}

impl Model for Bounds {
    ghost use Rattle.vx_geom.specs.Sizes.{Sizes, AreSizes};

    ghost Value = { Sizes };

    ghost view = { λ b. record { sx = b.sx; sz = b.sz; s = b.s; h = b.h } };

    ghost invariant = { λ b. AreSizes (record { sx = b.sx; sz = b.sz; s = b.s; h = b.h }) };

    ghost inverse = { λ v. record { sx = v.sx; sz = v.sz; s = v.s; h = v.h } };
}

impl Bounds {
    ghost use Rattle.vx_geom.specs.Places.{west, north, first_near, end_near, position_in_sector};
    ghost use Rattle.vx_geom.specs.Sizes.{Sizes, AreSizes, span, sector_count, is_inside, sector_number, sector_of, sector_cells, index_in_sector};

    /// A world of `sx` by `sz` sectors, 1 to 16 each, of `s` by `s` chunks, `s` being 1 or 2, which
    /// is `h` cells high, 64 or 128.
    pub fn new(sx: u8, sz: u8, s: u8, h: u8) -> Option<Bounds>
        ensures { let sizes : Sizes = record { sx = sx; sz = sz; s = s; h = h } in
            SomeIff result (AreSizes sizes) sizes }
    {
        if !(1..=MAX_SECTORS_EACH_WAY).contains(&sx) || !(1..=MAX_SECTORS_EACH_WAY).contains(&sz) {
            return None;
        }
        if !(1..=MAX_CHUNKS_EACH_WAY).contains(&s) {
            return None;
        }
        if h != LOW_HEIGHT && h != HIGH_HEIGHT {
            return None;
        }
        Some(Bounds { sx, sz, s, h })
    }

    /// What holds of all bounds: there are 1 to 16 sectors each way, of 1 or 2 chunks each way, and
    /// the world is 64 or 128 cells high.
    pub fn soundness(&self)
        ensures { AreSizes self.now }
    {
        let _ = &self.s;
    }

    /// How many columns a side of a sector has: 16 or 32.
    pub fn span(&self) -> u32
        ensures { result ≡ span self.now }
    {
        16 * u32::from(self.s)
    }

    /// How many cells the world is high: 64 or 128.
    pub fn height(&self) -> u32
        ensures { result ≡ self.now.h }
    {
        u32::from(self.h)
    }

    /// How many columns the world has from west to east: 16 to 512.
    pub fn columns(&self) -> u32
        ensures value { result ≡ self.now.sx * span self.now }
        ensures most { result ≤ MAX_COLUMNS_EACH_WAY }
    {
        self.soundness();
        u32::from(self.sx) * self.span()
    }

    /// How many rows of columns it has from north to south: 16 to 512.
    pub fn rows(&self) -> u32
        ensures value { result ≡ self.now.sz * span self.now }
        ensures most { result ≤ MAX_COLUMNS_EACH_WAY }
    {
        self.soundness();
        u32::from(self.sz) * self.span()
    }

    /// How many sectors there are: 1 to 256.
    pub fn sectors(&self) -> u32
        ensures { result ≡ sector_count self.now }
    {
        u32::from(self.sx) * u32::from(self.sz)
    }

    /// Whether the world has a cell there.
    #[tactic(auto, using(vx_base::proofs::Signed::signed), unfolding(crate::specs::Sizes::is_inside))]
    pub fn inside(&self, p: Pos) -> bool
        ensures { result ≡ is_inside self.now p }
    {
        if !is_below(p.x, u32::from(self.sx) * self.span()) {
            return false;
        }
        is_below(p.y, self.height()) && is_below(p.z, u32::from(self.sz) * self.span())
    }

    /// The position with these coordinates, where the world has a cell there.
    #[tactic(auto, using(vx_base::proofs::Signed::signed), unfolding(crate::specs::Sizes::is_inside))]
    pub fn position(&self, x: i64, y: i64, z: i64) -> Option<Pos>
        ensures { let p : Pos = record { y = y; z = z; x = x } in
            SomeIff result (is_inside self.now p ≡ true) p }
    {
        self.soundness();
        Some(Pos {
            x: coordinate(x, u32::from(self.sx) * self.span())?,
            y: coordinate(y, self.height())?,
            z: coordinate(z, u32::from(self.sz) * self.span())?,
        })
    }

    /// The number of the sector that holds the position, row by row from the north west; `None`
    /// outside the world.
    #[tactic(auto, unfolding(crate::specs::Sizes::sector_of))]
    pub fn sector_of(&self, p: Pos) -> Option<u32>
        ensures { result ≡ sector_of self.now p }
    {
        if self.inside(p) {
            Some(self.sector_holding(p))
        } else {
            None
        }
    }

    /// The number of the sector that holds a position of the world.
    #[tactic(auto, using(vx_base::proofs::Signed::signed), unfolding(crate::specs::Sizes::sector_number))]
    pub fn sector_holding(&self, p: Pos) -> u32
        requires { is_inside self.now p ≡ true }
        ensures { result ≡ sector_number self.now p }
    {
        self.soundness();
        let column = self.sides(p.x.unsigned_abs());
        let row = self.sides(p.z.unsigned_abs());
        column + u32::from(self.sx) * row
    }

    /// How many cells a sector has: 16,384 or 65,536 in a low world, twice as many in a high one.
    pub fn sector_cells(&self) -> u32
        ensures { result ≡ sector_cells self.now }
    {
        self.soundness();
        self.span() * self.span() * self.height()
    }

    /// The index of a position among the cells of its sector.
    #[tactic(auto, using(vx_base::proofs::Signed::signed), unfolding(crate::specs::Sizes::index_in_sector))]
    pub fn index_in_sector(&self, p: Pos) -> u32
        requires { is_inside self.now p ≡ true }
        ensures value { result ≡ index_in_sector self.now p }
        ensures within { result < sector_cells self.now }
    {
        self.soundness();
        let column = self.past_sides(p.x.unsigned_abs());
        let row = self.past_sides(p.z.unsigned_abs());
        cell_index(self.span(), self.height(), column, p.y.unsigned_abs(), row)
    }

    /// The first column of a sector, counted from the west.
    pub fn west(&self, sector: u32) -> u32
        requires { sector < sector_count self.now }
        ensures value { result ≡ west self.now sector }
        ensures within { result < MAX_COLUMNS_EACH_WAY }
    {
        self.soundness();
        self.span() * (sector % u32::from(self.sx))
    }

    /// The first column of a sector, counted from the north.
    pub fn north(&self, sector: u32) -> u32
        requires { sector < sector_count self.now }
        ensures value { result ≡ north self.now sector }
        ensures within { result < MAX_COLUMNS_EACH_WAY }
    {
        self.soundness();
        self.span() * (sector / u32::from(self.sx))
    }

    /// The position of the cell of that index in a sector.
    #[tactic(auto, unfolding(crate::specs::Places::position_in_sector))]
    pub fn position_in_sector(&self, sector: u32, index: u32) -> Pos
        requires sector { sector < sector_count self.now }
        requires index { index < sector_cells self.now }
        ensures { result ≡ position_in_sector self.now sector index }
    {
        self.soundness();
        let row = self.sides(index);
        Pos {
            y: self.sides(row) as i32,
            z: (self.north(sector) + self.past_sides(row)) as i32,
            x: (self.west(sector) + self.past_sides(index)) as i32,
        }
    }

    /// The least number that a sector has that is at most two columns and two rows of sectors off
    /// this one.
    pub fn first_near(&self, sector: u32) -> u32
        requires { sector < sector_count self.now }
        ensures value { result ≡ first_near self.now sector }
        ensures within { result ≤ sector }
    {
        sector.saturating_sub(2 * (u32::from(self.sx) + 1))
    }

    /// One more than the greatest number that such a sector has.
    pub fn end_near(&self, sector: u32) -> u32
        requires { sector < sector_count self.now }
        ensures value { result ≡ end_near self.now sector }
        ensures within { result ≤ sector_count self.now }
    {
        self.soundness();
        (sector + 2 * (u32::from(self.sx) + 1) + 1).min(self.sectors())
    }

    /// How many whole sides of a sector so many columns are.
    // Each width stands as a number, so that the machine need not divide.
    pub fn sides(&self, columns: u32) -> u32
        ensures { result ≡ columns / span self.now }
    {
        self.soundness();
        if self.s == 1 {
            columns / 16
        } else {
            columns / 32
        }
    }

    // How many columns are left over then.
    fn past_sides(&self, columns: u32) -> u32
        ensures { result ≡ columns % span self.now }
    {
        self.soundness();
        if self.s == 1 {
            columns % 16
        } else {
            columns % 32
        }
    }
}

// The index of the cell at `x`, `y`, `z` of a box that is `span` by `span` columns wide and so high.
fn cell_index(span: u32, height: u32, x: u32, y: u32, z: u32) -> u32
    requires narrow { span ≤ 32 }
    requires flat { height ≤ HIGH_HEIGHT }
    requires column { x < span }
    requires low { y < height }
    requires row { z < span }
    ensures value { result ≡ x + span * (z + span * y) }
    ensures within { result < span * span * height }
{
    let row = z + span * y;
    x + span * row
}

// The coordinate c, where 0 <= c < n.
fn coordinate(c: i64, n: u32) -> Option<i32>
    requires { n ≤ MAX_COLUMNS_EACH_WAY }
    ensures { SomeIff result (is_below c n ≡ true) c }
{
    if 0 <= c && c < i64::from(n) {
        Some(c as i32)
    } else {
        None
    }
}

// Whether 0 <= c < n.
fn is_below(c: i32, n: u32) -> bool
    ensures { result ≡ is_below c n }
{
    0 <= c && c.unsigned_abs() < n
}
