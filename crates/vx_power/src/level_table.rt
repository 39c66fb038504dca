ghost use Rattle.std.specs.Prelude.{◌≡◌, ◌<◌, ◌≤◌, true, [], if◌then◌else◌, OnOk};
ghost use Rattle.vx_geom.specs.declared.pos.Pos.{Pos};
ghost use Rattle.vx_power.specs.Levels.{is_place, sheet_of, level_in, level_of, same_place, ReachesSheet};

use crate::leveled::Leveled;
use crate::sheet::{Sheet, sheet_number};
use std::alloc::{AllocError, Global};
use std::marker::Model;
use vx_geom::Pos;

/// The levels of the dust in a sector and near it.
// They stand by sheet, layer by layer from the bottom up; one in which no level was put takes no
// memory.
#[derive(Drop)]
pub struct Levels {
    sheets: Vec<Option<Sheet>>,
}

impl Model for Levels {
    ghost use Rattle.vx_power.specs.Levels.{LevelTable};

    ghost Value = { LevelTable };

    ghost view = { λ a. a.sheets.items };
}

impl Levels {
    /// No levels. It takes no memory.
    pub fn new(alloc: Global) -> Levels
        ensures { result ≡ [] }
    {
        Levels {
            sheets: Vec::new(alloc),
        }
    }

    /// Another level at a position of the widest world.
    pub fn put(&mut self, p: Pos, level: u8) -> Result<(), AllocError>
        requires place { is_place p ≡ true }
        requires most { level ≤ 15 }
        ensures { OnOk result ((q : Pos)
            → level_in self.new q ≡ (if same_place q p then level else level_in self.old q)) }
    {
        let number = sheet_number(p);
        self.reach_sheet(number)?;
        let alloc = *self.sheets.allocator();
        put_in(alloc, &mut self.sheets[number], p, level)
    }

    // Makes entries up to that sheet.
    fn reach_sheet(&mut self, number: usize) -> Result<(), AllocError>
        ensures { OnOk result (ReachesSheet number self.old self.new) }
    {
        while self.sheets.len() <= number {
            self.sheets.push(None)?;
        }
        Ok(())
    }
}

impl Leveled for Levels {
    ghost level = { level_in };

    fn at(&self, p: Pos) -> u8 {
        match self.sheets.get(sheet_number(p)) {
            Some(Some(sheet)) => sheet.at(p),
            _ => 0,
        }
    }
}

// Another level at a position of a sheet.
fn put_in(alloc: Global, sheet: &mut Option<Sheet>, p: Pos, level: u8) -> Result<(), AllocError>
    requires place { is_place p ≡ true }
    requires most { level ≤ 15 }
    ensures { OnOk result ((q : Pos) → sheet_of q ≡ sheet_of p → level_of sheet.new q
        ≡ (if same_place q p then level else level_of sheet.old q)) }
{
    match sheet {
        Some(sheet) => sheet.put(p, level),
        None => {
            let mut levels = Sheet::new(alloc)?;
            levels.put(p, level);
            *sheet = Some(levels);
        }
    }
    Ok(())
}
