ghost use Rattle.std.specs.Prelude.{◌≡◌, ◌<◌, [], ◌∷◌, ◌++◌, if◌then◌else◌, None, Some, IfOk, OnOk, IfSome};
ghost use Rattle.std.specs.List.{filter};
ghost use Rattle.vx_block.specs.declared.cell.Cell.TheVariants.{Dust};
ghost use Rattle.vx_cells.specs.Maps.{cell_on};
ghost use Rattle.vx_cells.specs.SameCells.{same_cell};
ghost use Rattle.vx_geom.specs.Sizes.{sector_count};
ghost use Rattle.vx_part.specs.Changes.{change_at, changes};
ghost use Rattle.vx_piston.specs.Moves.{is_restless};
ghost use Rattle.vx_places.specs.Places.{is_at};
ghost use Rattle.vx_power.specs.Levels.{AreAllLevels};
ghost use Rattle.vx_still.specs.Waking.{IsSettled};
ghost use Rattle.vx_tick.specs.Pieces.{changed_in, restless_in, RestsOutside};

use std::alloc::{AllocError, Global};
use vx_block::{Cell, Level};
use vx_cells::Frozen;
use vx_geom::Pos;
use vx_piston::is_restless;
use vx_places::Places;
use vx_power::Leveled;

/// What a tick sees at some positions of a map as it begins, in their order.
#[derive(Drop)]
pub struct Seen {
    /// The cells that are others when each component has become its next part.
    pub changes: Vec<(Pos, Cell)>,
    /// The pistons that would move.
    pub restless: Vec<Pos>,
}

impl Seen {
    /// Nothing. It takes no memory.
    pub fn nothing(alloc: Global) -> Seen
        ensures changes { result.changes.items ≡ [] }
        ensures restless { result.restless.items ≡ [] }
    {
        Seen {
            changes: Vec::new(alloc),
            restless: Vec::new(alloc),
        }
    }

    /// What is seen in a sector, by the levels of all dust of the map: at the places outside which
    /// the map rests, where these are told, and else at all components.
    pub fn in_sector<L: Leveled>(
        alloc: Global,
        map: &Frozen<'_>,
        levels: &L,
        places: Option<&Places>,
        sector: u32,
    ) -> Result<Seen, AllocError>
        requires there { sector < sector_count map.now.sizes }
        requires levels { AreAllLevels map.now (L.level levels.now) }
        requires rests { IfSome places (λ places. RestsOutside map.now places.now) }
        ensures changes { IfOk result (λ seen. seen.changes.items ≡ changed_in map.now sector) }
        ensures restless { IfOk result (λ seen.
            seen.restless.items ≡ restless_in map.now sector) }
    {
        let mut seen = Seen::nothing(alloc);
        match places {
            Some(places) => seen.add_places(alloc, map, levels, places, sector)?,
            None => seen.add_sector(alloc, map, levels, sector)?,
        }
        Ok(seen)
    }

    /// Adds what is seen in a sector, by the levels of all dust of the map. It costs what the
    /// components of the sector are.
    pub fn add_sector<L: Leveled>(
        &mut self,
        alloc: Global,
        map: &Frozen<'_>,
        levels: &L,
        sector: u32,
    ) -> Result<(), AllocError>
        requires there { sector < sector_count map.now.sizes }
        requires levels { AreAllLevels map.now (L.level levels.now) }
        ensures changes { OnOk result
            (self.new.changes.items ≡ self.old.changes.items ++ changed_in map.now sector) }
        ensures restless { OnOk result
            (self.new.restless.items ≡ self.old.restless.items ++ restless_in map.now sector) }
    {
        let here = map.components(alloc, sector)?;
        self.add_all(map, levels, here.as_slice())
    }

    /// Adds what is found in a sector, where the map rests outside these places. It costs what
    /// those of the sector are.
    #[inline(always)]
    pub fn add_places<L: Leveled>(
        &mut self,
        alloc: Global,
        map: &Frozen<'_>,
        levels: &L,
        places: &Places,
        sector: u32,
    ) -> Result<(), AllocError>
        requires there { sector < sector_count map.now.sizes }
        requires levels { AreAllLevels map.now (L.level levels.now) }
        requires sizes { places.now.sizes ≡ map.now.sizes }
        requires settled { IsSettled map.now (is_at places.now) }
        ensures changes { OnOk result
            (self.new.changes.items ≡ self.old.changes.items ++ changed_in map.now sector) }
        ensures restless { OnOk result
            (self.new.restless.items ≡ self.old.restless.items ++ restless_in map.now sector) }
    {
        let here = places.in_sector(alloc, sector)?;
        self.add_all(map, levels, here.as_slice())
    }

    // Adds what is seen at these positions.
    fn add_all<L: Leveled>(
        &mut self,
        map: &Frozen<'_>,
        levels: &L,
        positions: &[Pos],
    ) -> Result<(), AllocError>
        ensures changes { OnOk result (self.new.changes.items ≡ self.old.changes.items
            ++ changes (cell_on map.now) (L.level levels.now) positions.now) }
        ensures restless { OnOk result (self.new.restless.items ≡ self.old.restless.items
            ++ filter (is_restless (cell_on map.now) (L.level levels.now)) positions.now) }
    {
        for p in positions {
            self.add(map, levels, *p)?;
        }
        Ok(())
    }

    // Adds what is seen at a position. The cell there is looked up once.
    fn add<L: Leveled>(&mut self, map: &Frozen<'_>, levels: &L, p: Pos) -> Result<(), AllocError>
        ensures changes { OnOk result (self.new.changes.items ≡ self.old.changes.items
            ++ changes (cell_on map.now) (L.level levels.now) (p ∷ [])) }
        ensures restless { OnOk result (self.new.restless.items ≡ self.old.restless.items
            ++ filter (is_restless (cell_on map.now) (L.level levels.now)) (p ∷ [])) }
    {
        let cell = map.cell(p);
        if is_restless(map, levels, p, &cell) {
            self.restless.push(p)?;
        }
        if let Some(next) = change(map, levels, p, &cell) {
            self.changes.push((p, next))?;
        }
        Ok(())
    }
}

// What this cell, which stands at a position, is after the tick, pistons left out, where that is
// another cell.
#[tactic(auto, unfolding(vx_part::specs::Changes::change_at, vx_part::specs::Parts::next_of))]
fn change<L: Leveled>(map: &Frozen<'_>, levels: &L, p: Pos, cell: &Cell) -> Option<Cell>
    requires { cell.now ≡ cell_on map.now p }
    ensures { result ≡ change_at (cell_on map.now) (L.level levels.now) p }
{
    match *cell {
        Cell::Dust(level) => changed_dust(level, levels.at(p)),
        Cell::Piston { .. } => None,
        _ => vx_part::change(map, levels, p, cell),
    }
}

// Dust of this level after the tick, where its level is another then.
#[tactic(auto, unfolding(vx_cells::specs::SameCells::same_cell))]
fn changed_dust(was: Level, now: u8) -> Option<Cell>
    requires { now < 16 }
    ensures { result ≡ (if same_cell (Dust now) (Dust was) then None else Some (Dust now)) }
{
    if now == was.value() {
        None
    } else {
        Some(Cell::Dust(Level::new(now)))
    }
}
