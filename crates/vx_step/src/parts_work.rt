ghost use Rattle.std.specs.Prelude.{◌≡◌, IfSome};
ghost use Rattle.std.proofs.Props.{props};
ghost use Rattle.vx_geom.specs.Sizes.{sector_count};
ghost use Rattle.vx_power.specs.Levels.{AreAllLevels};
ghost use Rattle.vx_step.specs.Shares.{IsFoundIn};
ghost use Rattle.vx_tick.specs.Pieces.{RestsOutside};

use crate::work::Work;
use std::alloc::{AllocError, Global};
use vx_cells::Frozen;
use vx_places::Places;
use vx_power::Leveled;
use vx_tick::{Found, Phase};

/// What each sector becomes, and what its pistons ask for.
#[derive(Drop)]
pub struct PartsWork<'a, L: Leveled> {
    map: &'a Frozen<'a>,
    levels: &'a L,
    places: Option<&'a Places>,
    ghost exact: { AreAllLevels map.now (L.level levels.now) },
    ghost rests: { IfSome places (λ p. RestsOutside map.now p.now) } by { Prim.hlevel props },
}

impl<'a, L: Leveled> PartsWork<'a, L> {
    /// The work on a map with the levels of all its dust: at the places outside which it rests,
    /// where these are told, and else at all components.
    pub fn new(map: &'a Frozen<'a>, levels: &'a L, places: Option<&'a Places>) -> PartsWork<'a, L>
        requires levels { AreAllLevels map.now (L.level levels.now) }
        requires rests { IfSome places (λ places. RestsOutside map.now places.now) }
        ensures { result.map.now ≡ map.now }
    {
        PartsWork {
            map,
            levels,
            places,
        }
    }
}

impl<L: Leveled> Work for PartsWork<'_, L> {
    type Out = Found;

    ghost count = { λ work. sector_count work.map.now.sizes };

    ghost gives = { λ work sector found. IsFoundIn work.map.now sector found };

    fn sectors(&self) -> u32 {
        self.map.bounds().sectors()
    }

    fn phase(&self) -> Phase {
        Phase::Parts
    }

    fn piece(&self, alloc: Global, sector: u32) -> Result<Found, AllocError> {
        Found::in_sector(alloc, self.map, self.levels, self.places, sector)
    }
}
