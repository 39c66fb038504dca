ghost use Rattle.std.specs.Prelude.{◌≡◌, ◌<◌, ◌≤◌, true, Some, if◌then◌else◌, IfOk};
ghost use Rattle.vx_geom.specs.declared.pos.Pos.{Pos};
ghost use Rattle.vx_power.specs.Levels.{is_place, sheet_of, column, columns, level_of, same_place};

use crate::columns::is_between;
use std::alloc::{AllocError, Global};
use std::marker::Model;
use vx_geom::{HIGH_HEIGHT, MAX_COLUMNS_EACH_WAY, Pos};

/// A sheet is so many columns wide from west to east, and as many from north to south, and one cell
/// high.
pub const SHEET_SIDE: usize = 128;

/// The widest world has so many sheets from west to east, and as many from north to south.
pub const SHEETS_EACH_WAY: usize = MAX_COLUMNS_EACH_WAY as usize / SHEET_SIDE;

/// The levels of a sheet, a part of one layer of the widest world: a byte for each of its columns.
#[derive(Drop)]
pub struct Sheet {
    bytes: Vec<u8>,
}

impl Model for Sheet {
    ghost use Rattle.std.specs.Prelude.{ℕ, List};
    ghost use Rattle.vx_power.specs.Levels.{IsSheet};

    ghost Value = { List ℕ };

    ghost view = { λ a. a.bytes.items };

    ghost invariant = { λ a. IsSheet a.bytes.items };
}

impl Sheet {
    /// No levels. It takes 16,384 bytes.
    pub fn new(alloc: Global) -> Result<Sheet, AllocError>
        ensures { IfOk result (λ sheet. (p : Pos) → level_of (Some sheet) p ≡ 0) }
    {
        Ok(Sheet {
            bytes: vec![in alloc; 0_u8; SHEET_SIDE * SHEET_SIDE]?,
        })
    }

    /// Another level at a position of the sheet.
    pub fn put(&mut self, p: Pos, level: u8)
        requires place { is_place p ≡ true }
        requires most { level ≤ 15 }
        ensures { (q : Pos) → sheet_of q ≡ sheet_of p → level_of (Some self.new) q
            ≡ (if same_place q p then level else level_of (Some self.old) q) }
    {
        self.bytes[column(p)] = level;
    }

    /// The level at a position of the sheet; 0 outside the widest world.
    pub fn at(&self, p: Pos) -> u8
        ensures value { result ≡ level_of (Some self.now) p }
        ensures most { result < 16 }
    {
        if is_place(p) {
            self.bytes[column(p)]
        } else {
            0
        }
    }
}

/// The number of the sheet that holds a position: row by row from the north west, layer by layer
/// from the bottom of the world.
#[tactic(auto, using(vx_base::proofs::Signed::signed))]
pub fn sheet_number(p: Pos) -> usize
    ensures { result ≡ sheet_of p }
{
    let from_west = p.x.unsigned_abs() as usize / SHEET_SIDE;
    let from_north = p.z.unsigned_abs() as usize / SHEET_SIDE;
    from_west + SHEETS_EACH_WAY * (from_north + SHEETS_EACH_WAY * p.y.unsigned_abs() as usize)
}

/// Whether the widest world has a cell there.
#[tactic(auto, using(vx_base::proofs::Signed::signed))]
pub fn is_place(p: Pos) -> bool
    ensures { result ≡ is_place p }
{
    let wide = MAX_COLUMNS_EACH_WAY as i32;
    is_between(0, p.x, wide)
        && is_between(0, p.y, i32::from(HIGH_HEIGHT))
        && is_between(0, p.z, wide)
}

/// The number of the column of a position in its sheet, row by row from the north west.
#[tactic(auto, using(vx_base::proofs::Signed::signed))]
pub fn column(p: Pos) -> usize
    ensures value { result ≡ column p }
    ensures within { result < columns }
{
    let from_west = p.x.unsigned_abs() as usize % SHEET_SIDE;
    let from_north = p.z.unsigned_abs() as usize % SHEET_SIDE;
    from_west + SHEET_SIDE * from_north
}
