ghost use Rattle.std.specs.Prelude.{◌≡◌, ◌<◌, ◌≤◌, ◌+◌, ◌*◌, ◌%◌, ◌↔◌, ℕ, Bool, length, slice_index_or, slice_set, IsTrue, IfOk, OnOk, OnErr};
ghost use Rattle.vx_section.specs.Forms.{filled};
ghost use Rattle.vx_section.specs.Indices.{section_of, place_of, section_count, columns_of, side_of, index_at, nothing, AreSections, AreSame};
ghost use Rattle.vx_section.specs.declared.sections.TheConstants.{MOST_SECTIONS};

use crate::section::Section;
use std::alloc::{AllocError, Global};
use std::array;
use std::marker::Model;

// The largest sector, of 32 columns a side and 128 cells high, has so many sections.
const MOST_SECTIONS: usize = 32;

/// The bytes of a sector of 16 or 32 columns a side, 64 or 128 cells high, in the order of their
/// indices, kept section by section. Copies share each section until one of them changes it.
#[derive(Drop)]
pub struct Sections {
    alloc: Global,
    wide: bool,
    high: bool,
    // A sector uses the first of them, as many as `section_count` says. The others stay as they
    // were made, which takes no further memory, and nothing reads their bytes.
    sections: [Section; MOST_SECTIONS],
}

impl Model for Sections {
    ghost use Rattle.std.specs.Prelude.{List, ℕ};
    ghost use Rattle.vx_section.specs.Indices.{bytes_of, AreSections};

    ghost Value = { List ℕ };

    ghost view = { λ s. bytes_of s.wide s.high s.sections };

    ghost invariant = { λ s. AreSections s.sections };
}

impl Sections {
    /// That byte at each index. A wide sector has 32 columns a side and another one 16; a high one
    /// is 128 cells high and another one 64.
    pub fn new(alloc: Global, wide: bool, high: bool, byte: u8) -> Result<Sections, AllocError>
        ensures { IfOk result (λ s. s ≡ filled (4096 * section_count wide high) byte) }
    {
        Ok(Sections {
            alloc,
            wide,
            high,
            sections: blank(byte),
        })
    }

    /// The byte of an index.
    #[inline(always)]
    pub fn get(&self, index: u32) -> u8
        requires { index < length self.now }
        ensures { result ≡ slice_index_or self.now index 0 }
    {
        let section = section_of(self.wide, index) as usize;
        let place = place_of(self.wide, index);
        self.sections[section].get(place)
    }

    /// The byte of a column, a layer and a row. Columns and rows may be counted on over the sectors
    /// beside this one: what counts is what is left over whole sides.
    #[inline(always)]
    pub fn at(&self, column: u32, layer: u32, row: u32) -> u8
        requires { let side = side_of (length self.now) in
            side * side * (layer + 1) ≤ length self.now }
        ensures { let side = side_of (length self.now) in
            result ≡ slice_index_or self.now
            (column % side + side * (row % side + side * layer)) 0 }
    {
        let section = section_at(self.wide, column, layer, row) as usize;
        let place = place_at(column, layer, row);
        self.sections[section].get(place)
    }

    /// Puts a byte down at an index. It takes memory where the section changes its form, or is
    /// shared by a copy.
    pub fn set(&mut self, index: u32, byte: u8) -> Result<(), AllocError>
        requires { index < length self.old }
        ensures ok { OnOk result (self.new ≡ slice_set self.old index byte) }
        ensures err { OnErr result (self.new ≡ self.old) }
    {
        let alloc = self.alloc;
        let section = section_of(self.wide, index) as usize;
        let place = place_of(self.wide, index);
        self.sections[section].set(alloc, place, byte)
    }

    /// Whether both have the same byte at each index, in whatever forms.
    pub fn same(&self, other: &Sections) -> bool
        ensures { IsTrue result ↔ self.now ≡ other.now }
    {
        if self.wide != other.wide || self.high != other.high {
            return false;
        }
        all_same(
            &self.sections,
            &other.sections,
            section_count(self.wide, self.high),
        )
    }

    /// The form of the section that holds an index: 1, 2 or 3.
    pub fn form(&self, index: u32) -> u8
        requires { index < length self.now }
        ensures { (1 ≤ result) × (result ≤ 3) }
    {
        self.sections[section_of(self.wide, index) as usize].form()
    }
}

impl Clone for Sections {
    ghost is_clone = { λ sections copy. copy ≡ sections };

    fn clone(&self) -> Result<Sections, AllocError> {
        Ok(Sections {
            alloc: self.alloc,
            wide: self.wide,
            high: self.high,
            sections: copied(&self.sections, section_count(self.wide, self.high))?,
        })
    }
}

// The section of an index.
#[inline(always)]
fn section_of(wide: bool, index: u32) -> u32
    requires { index < 4096 * MOST_SECTIONS }
    ensures value { result ≡ section_of wide index }
    ensures within { result < MOST_SECTIONS }
{
    if wide {
        index / 16384 * 4 + index / 512 % 2 * 2 + index / 16 % 2
    } else {
        index / 4096
    }
}

// The place of an index in its section.
#[inline(always)]
fn place_of(wide: bool, index: u32) -> u32
    ensures value { result ≡ place_of wide index }
    ensures within { result < 4096 }
{
    if wide {
        index / 1024 % 16 * 256 + index / 32 % 16 * 16 + index % 16
    } else {
        index % 4096
    }
}

// The section of a column, a layer and a row.
#[inline(always)]
fn section_at(wide: bool, column: u32, layer: u32, row: u32) -> u32
    requires { layer < 128 }
    ensures value { result ≡ section_of wide (index_at (columns_of wide) column layer row) }
    ensures within { result < MOST_SECTIONS }
{
    if wide {
        layer / 16 * 4 + row / 16 % 2 * 2 + column / 16 % 2
    } else {
        layer / 16
    }
}

// The place of a column, a layer and a row in their section.
#[inline(always)]
fn place_at(column: u32, layer: u32, row: u32) -> u32
    ensures value { (wide : Bool)
        → result ≡ place_of wide (index_at (columns_of wide) column layer row) }
    ensures within { result < 4096 }
{
    layer % 16 * 256 + row % 16 * 16 + column % 16
}

// How many sections a sector has.
fn section_count(wide: bool, high: bool) -> usize
    ensures value { result ≡ section_count wide high }
    ensures within { result ≤ MOST_SECTIONS }
{
    let side_by_side = if wide { 4 } else { 1 };
    let stacked = if high { 8 } else { 4 };
    side_by_side * stacked
}

// Sections of that byte.
fn blank(byte: u8) -> [Section; MOST_SECTIONS]
    ensures count { length result ≡ MOST_SECTIONS }
    ensures each { (k : ℕ) → k < MOST_SECTIONS
        → (slice_index_or result k nothing).bytes ≡ filled 4096 byte }
{
    array::from_fn(|_| Section::new(byte))
}

// Copies of the sections that are used, the first so many, and blank ones after them.
fn copied(
    sections: &[Section; MOST_SECTIONS],
    used: usize,
) -> Result<[Section; MOST_SECTIONS], AllocError>
    requires sections { AreSections sections.now }
    requires used { used ≤ MOST_SECTIONS }
    ensures sections { IfOk result AreSections }
    ensures same { IfOk result (λ copies. AreSame used copies sections.now) }
{
    let mut copies = blank(0);
    for k in 0..used {
        copies[k] = sections[k].clone()?;
    }
    Ok(copies)
}

// Whether the first so many sections of two lists have the same bytes, one by one.
fn all_same(mine: &[Section], its: &[Section], count: usize) -> bool
    requires mine { count ≤ length mine.now }
    requires its { count ≤ length its.now }
    ensures { IsTrue result ↔ AreSame count mine.now its.now }
{
    for k in 0..count {
        if !mine[k].same(&its[k]) {
            return false;
        }
    }
    true
}
