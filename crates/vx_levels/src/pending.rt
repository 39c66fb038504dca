ghost use Rattle.std.specs.Prelude.{◌≡◌, ◌++◌, ◌∷◌, [], true, OnOk, IfNone};
ghost use Rattle.std.specs.List.{filter};
ghost use Rattle.std.specs.Option.{option_to_list};
ghost use Rattle.vx_geom.specs.declared.pos.Pos.{Pos};
ghost use Rattle.vx_levels.specs.Linked.{level_at, linked, links_at};
ghost use Rattle.vx_levels.specs.Pending.{is_between};
ghost use Rattle.vx_power.specs.Levels.{is_place};

use crate::linked_levels::LinkedLevels;
use crate::links::add_below;
use std::alloc::{AllocError, Global};
use std::marker::Model;
use vx_geom::Pos;

/// The positions that have to be looked at while levels are made right again: those of which
/// nothing is known, those whose level may be too high, and those whose level may be too low.
#[derive(Drop)]
pub(crate) struct Pending {
    unsure: Vec<Pos>,
    falling: Vec<Pos>,
    rising: Vec<Pos>,
}

impl Model for Pending {
    ghost use Rattle.vx_levels.specs.Pending.{PendingData};

    ghost Value = { PendingData };

    ghost view = { λ a. record {
      unsure = a.unsure.items;
      falling = a.falling.items;
      rising = a.rising.items;
    } };
}

impl Pending {
    /// These positions, of which nothing is known.
    pub(crate) fn at(alloc: Global, unsure: Vec<Pos>) -> Pending
        ensures { result ≡ record { unsure = unsure.items; falling = []; rising = [] } }
    {
        Pending {
            unsure,
            falling: Vec::new(alloc),
            rising: Vec::new(alloc),
        }
    }

    /// Whether there are none.
    pub(crate) fn is_empty(&self) -> bool
        ensures { result ≡ true
            → self.now ≡ record { unsure = []; falling = []; rising = [] } }
    {
        self.unsure.is_empty() && self.falling.is_empty() && self.rising.is_empty()
    }

    /// Takes one of which nothing is known.
    pub(crate) fn next_unsure(&mut self) -> Option<Pos>
        ensures taken { self.old ≡ record self.new {
          unsure = self.new.unsure ++ option_to_list result;
        } }
        ensures none { IfNone result (self.new.unsure ≡ []) }
    {
        self.unsure.pop()
    }

    /// Takes one whose level may be too high.
    pub(crate) fn next_falling(&mut self) -> Option<Pos>
        ensures taken { self.old ≡ record self.new {
          falling = self.new.falling ++ option_to_list result;
        } }
        ensures none { IfNone result (self.new.falling ≡ []) }
    {
        self.falling.pop()
    }

    /// Takes one whose level may be too low.
    pub(crate) fn next_rising(&mut self) -> Option<Pos>
        ensures { self.old ≡ record self.new {
          rising = self.new.rising ++ option_to_list result;
        } }
    {
        self.rising.pop()
    }

    /// Adds a position whose level may be too high.
    pub(crate) fn add_falling(&mut self, p: Pos) -> Result<(), AllocError>
        ensures { OnOk result (self.new ≡ record self.old {
          falling = self.old.falling ++ p ∷ [];
        }) }
    {
        self.falling.push(p)?;
        Ok(())
    }

    /// Adds a position whose level may be too low.
    pub(crate) fn add_rising(&mut self, p: Pos) -> Result<(), AllocError>
        ensures { OnOk result (self.new ≡ record self.old {
          rising = self.old.rising ++ p ∷ [];
        }) }
    {
        self.rising.push(p)?;
        Ok(())
    }

    /// Adds what dust at a position links to as what may be too high, where one more than the level
    /// lies from `least` up to below `bound`.
    pub(crate) fn add_falling_below(
        &mut self,
        levels: &LinkedLevels,
        p: Pos,
        least: u8,
        bound: u8,
    ) -> Result<(), AllocError>
        requires { is_place p ≡ true }
        ensures { OnOk result (self.new ≡ record self.old {
          falling = self.old.falling
              ++ filter (is_between (level_at levels.now) least bound)
              (linked (links_at levels.now p) p);
        }) }
    {
        add_below(&mut self.falling, levels, p, least, bound)
    }

    /// Adds such dust as what may be too low.
    pub(crate) fn add_rising_below(
        &mut self,
        levels: &LinkedLevels,
        p: Pos,
        least: u8,
        bound: u8,
    ) -> Result<(), AllocError>
        requires { is_place p ≡ true }
        ensures { OnOk result (self.new ≡ record self.old {
          rising = self.old.rising
              ++ filter (is_between (level_at levels.now) least bound)
              (linked (links_at levels.now p) p);
        }) }
    {
        add_below(&mut self.rising, levels, p, least, bound)
    }
}
