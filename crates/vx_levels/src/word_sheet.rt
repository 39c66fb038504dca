ghost use Rattle.std.specs.Prelude.{◌≡◌, true, Some, if◌then◌else◌, IfOk};
ghost use Rattle.vx_geom.specs.declared.pos.Pos.{Pos};
ghost use Rattle.vx_power.specs.Levels.{is_place, sheet_of, level_of, same_place};

use std::alloc::{AllocError, Global};
use std::marker::Model;
use vx_geom::Pos;
use vx_power::{SHEET_SIDE, column, is_place};

/// A word of 16 bits for each column of a sheet, a part of one layer of the widest world.
#[derive(Drop)]
pub(crate) struct WordSheet {
    words: Vec<u16>,
}

impl Model for WordSheet {
    ghost use Rattle.std.specs.Prelude.{◌≡◌, ℕ, List, length};
    ghost use Rattle.vx_power.specs.Levels.{columns};

    ghost Value = { List ℕ };

    ghost view = { λ a. a.words.items };

    ghost invariant = { λ a. length a.words.items ≡ columns };
}

impl WordSheet {
    /// Words of 0. It takes 32,768 bytes.
    pub(crate) fn new(alloc: Global) -> Result<WordSheet, AllocError>
        ensures { IfOk result (λ sheet. (p : Pos) → level_of (Some sheet) p ≡ 0) }
    {
        Ok(WordSheet {
            words: vec![in alloc; 0_u16; SHEET_SIDE * SHEET_SIDE]?,
        })
    }

    /// Another word at a position of the sheet.
    pub(crate) fn put(&mut self, p: Pos, word: u16)
        requires { is_place p ≡ true }
        ensures { (q : Pos) → sheet_of q ≡ sheet_of p → level_of (Some self.new) q
            ≡ (if same_place q p then word else level_of (Some self.old) q) }
    {
        self.words[column(p)] = word;
    }

    /// The word at a position of the sheet; 0 outside the widest world.
    pub(crate) fn at(&self, p: Pos) -> u16
        ensures { result ≡ level_of (Some self.now) p }
    {
        if is_place(p) {
            self.words[column(p)]
        } else {
            0
        }
    }
}
