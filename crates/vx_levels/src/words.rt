ghost use Rattle.std.specs.Prelude.{◌≡◌, ◌<◌, true, [], if◌then◌else◌, OnOk};
ghost use Rattle.vx_geom.specs.declared.pos.Pos.{Pos};
ghost use Rattle.vx_power.specs.Levels.{is_place, sheet_of, level_in, level_of, same_place, ReachesSheet};

use crate::word_sheet::WordSheet;
use std::alloc::{AllocError, Global};
use std::marker::Model;
use vx_geom::Pos;
use vx_power::{is_place, sheet_number};

/// A word of 16 bits for each position of the widest world, 0 where none was put.
// They stand by sheet, layer by layer from the bottom up; one in which no word was put takes no
// memory.
#[derive(Drop)]
pub(crate) struct Words {
    sheets: Vec<Option<WordSheet>>,
}

impl Model for Words {
    ghost use Rattle.vx_power.specs.Levels.{LevelTable};

    ghost Value = { LevelTable };

    ghost view = { λ a. a.sheets.items };
}

impl Words {
    /// No words. It takes no memory.
    pub(crate) fn new(alloc: Global) -> Words
        ensures { result ≡ [] }
    {
        Words {
            sheets: Vec::new(alloc),
        }
    }

    /// Another word at a position of the widest world.
    pub(crate) fn put(&mut self, p: Pos, word: u16) -> Result<(), AllocError>
        requires { is_place p ≡ true }
        ensures { OnOk result ((q : Pos)
            → level_in self.new q ≡ (if same_place q p then word else level_in self.old q)) }
    {
        let number = sheet_number(p);
        self.reach_sheet(number)?;
        let alloc = *self.sheets.allocator();
        put_in(alloc, &mut self.sheets[number], p, word)
    }

    /// The word at a position.
    pub(crate) fn at(&self, p: Pos) -> u16
        ensures { result ≡ level_in self.now p }
    {
        // Tested first, since what follows is quicker where no coordinate is below 0.
        if !is_place(p) {
            return 0;
        }
        match self.sheets.get(sheet_number(p)) {
            Some(Some(sheet)) => sheet.at(p),
            _ => 0,
        }
    }

    // Makes entries up to that sheet.
    fn reach_sheet(&mut self, number: usize) -> Result<(), AllocError>
        ensures { OnOk result (ReachesSheet number self.old self.new) }
    {
        while self.sheets.len() <= number {
            self.sheets.push(None)?;
        }
        Ok(())
    }
}

// Another word at a position of a sheet.
fn put_in(alloc: Global, sheet: &mut Option<WordSheet>, p: Pos, word: u16) -> Result<(), AllocError>
    requires { is_place p ≡ true }
    ensures { OnOk result ((q : Pos) → sheet_of q ≡ sheet_of p → level_of sheet.new q
        ≡ (if same_place q p then word else level_of sheet.old q)) }
{
    match sheet {
        Some(sheet) => sheet.put(p, word),
        None => {
            let mut words = WordSheet::new(alloc)?;
            words.put(p, word);
            *sheet = Some(words);
        }
    }
    Ok(())
}
