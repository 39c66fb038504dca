ghost use Rattle.std.specs.Prelude.{◌≡◌, ◌<◌, ◌≤◌, true, [], if◌then◌else◌, OnOk};
ghost use Rattle.vx_geom.specs.declared.pos.Pos.{Pos};
ghost use Rattle.vx_levels.specs.Linked.{level_at, links_at};
ghost use Rattle.vx_levels.specs.Pending.{IsPut};
ghost use Rattle.vx_power.specs.Levels.{is_place, same_place};

use crate::words::Words;
use std::alloc::{AllocError, Global};
use std::marker::Model;
use vx_geom::Pos;
use vx_power::Leveled;

/// For each position the level of dust there, and which positions that dust links to.
// The level stands in the lowest 4 bits of a word, and 3 bits for each side above them.
#[derive(Drop)]
pub struct LinkedLevels {
    words: Words,
}

impl Model for LinkedLevels {
    ghost use Rattle.vx_power.specs.Levels.{LevelTable};

    ghost Value = { LevelTable };

    ghost view = { λ a. a.words };
}

impl LinkedLevels {
    /// No levels and no links. It takes no memory.
    pub fn new(alloc: Global) -> LinkedLevels
        ensures { result ≡ [] }
    {
        LinkedLevels {
            words: Words::new(alloc),
        }
    }

    /// The links of dust at a position, 3 bits for each side.
    pub(crate) fn links(&self, p: Pos) -> u16
        ensures value { result ≡ links_at self.now p }
        ensures few { result < 4096 }
    {
        self.words.at(p) / 16
    }

    /// Another level at a position of the widest world. All links stay.
    pub(crate) fn put(&mut self, p: Pos, level: u8) -> Result<(), AllocError>
        requires place { is_place p ≡ true }
        requires most { level ≤ 15 }
        ensures level { OnOk result (IsPut (level_at self.old) (level_at self.new) p level) }
        ensures links { OnOk result ((q : Pos) → links_at self.new q ≡ links_at self.old q) }
    {
        let word = 16 * self.links(p) + u16::from(level);
        self.words.put(p, word)
    }

    /// Other links of dust at a position of the widest world. All levels stay.
    pub(crate) fn put_links(&mut self, p: Pos, links: u16) -> Result<(), AllocError>
        requires place { is_place p ≡ true }
        requires few { links < 4096 }
        ensures links { OnOk result ((q : Pos)
            → links_at self.new q ≡ (if same_place q p then links else links_at self.old q)) }
        ensures level { OnOk result ((q : Pos) → level_at self.new q ≡ level_at self.old q) }
    {
        if self.links(p) == links {
            return Ok(());
        }
        let word = 16 * links + u16::from(self.at(p));
        self.words.put(p, word)
    }
}

impl Leveled for LinkedLevels {
    ghost level = { level_at };

    fn at(&self, p: Pos) -> u8 {
        (self.words.at(p) % 16) as u8
    }
}
