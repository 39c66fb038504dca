ghost use Rattle.std.specs.Prelude.{◌≡◌, ◌<◌, ℕ, true, IfOk, IfSome};
ghost use Rattle.std.specs.List.{All, flat_map};
ghost use Rattle.vx_cells.specs.Maps.{cell_on};
ghost use Rattle.vx_geom.specs.declared.pos.Pos.{Pos};
ghost use Rattle.vx_geom.specs.Sizes.{sector_count};
ghost use Rattle.vx_piston.specs.Moves.{is_restless};
ghost use Rattle.vx_places.specs.Places.{is_at};
ghost use Rattle.vx_power.specs.Levels.{AreAllLevels};
ghost use Rattle.vx_still.specs.Waking.{IsSettled};
ghost use Rattle.vx_tick.specs.Pieces.{asked_in, changed_in, restless_in, restless_up_to, RestsOutside};
ghost use Rattle.vx_tick.specs.Ticks.{asked, changed_up_to, AreInOrder, AreMoves};

use crate::seen::Seen;
use std::alloc::{AllocError, Global};
use vx_block::Cell;
use vx_cells::Frozen;
use vx_geom::Pos;
use vx_piston::{Move, asked_by};
use vx_places::Places;
use vx_power::Leveled;

/// What a tick finds on a map as it begins, or in a part of it.
#[derive(Drop)]
pub struct Found {
    /// The cells that are others when each component has become its next part.
    pub changes: Vec<(Pos, Cell)>,
    /// The pistons that would move.
    pub restless: Vec<Pos>,
    /// The moves that they ask for.
    pub moves: Vec<Move>,
}

impl Found {
    /// What a tick finds on a map, with the moves in the order of the pistons' positions, by the
    /// levels of all its dust. It costs what the components of the map are.
    pub fn on<L: Leveled>(alloc: Global, map: &Frozen<'_>, levels: &L) -> Result<Found, AllocError>
        requires { AreAllLevels map.now (L.level levels.now) }
        ensures changes { IfOk result (λ found.
            found.changes.items ≡ changed_up_to map.now (sector_count map.now.sizes)) }
        ensures restless { IfOk result (λ found.
            found.restless.items ≡ restless_up_to map.now (sector_count map.now.sizes)) }
        ensures moves { IfOk result (λ found. AreMoves map.now found.moves.items) }
    {
        let mut seen = Seen::nothing(alloc);
        for sector in 0..map.bounds().sectors() {
            seen.add_sector(alloc, map, levels, sector)?;
        }
        Found::by(alloc, map, seen)
    }

    /// What a tick finds on a map, by the levels of all its dust: at the places outside which the
    /// map rests, where these are told, and else at all components.
    pub fn at<L: Leveled>(
        alloc: Global,
        map: &Frozen<'_>,
        levels: &L,
        places: Option<&Places>,
    ) -> Result<Found, AllocError>
        requires levels { AreAllLevels map.now (L.level levels.now) }
        requires rests { IfSome places (λ places. RestsOutside map.now places.now) }
        ensures changes { IfOk result (λ found.
            found.changes.items ≡ changed_up_to map.now (sector_count map.now.sizes)) }
        ensures restless { IfOk result (λ found.
            found.restless.items ≡ restless_up_to map.now (sector_count map.now.sizes)) }
        ensures moves { IfOk result (λ found. AreMoves map.now found.moves.items) }
    {
        match places {
            Some(places) => Found::among(alloc, map, levels, places),
            None => Found::on(alloc, map, levels),
        }
    }

    // What a tick finds at the places outside which a map rests. It costs what those are.
    fn among<L: Leveled>(
        alloc: Global,
        map: &Frozen<'_>,
        levels: &L,
        places: &Places,
    ) -> Result<Found, AllocError>
        requires levels { AreAllLevels map.now (L.level levels.now) }
        requires sizes { places.now.sizes ≡ map.now.sizes }
        requires settled { IsSettled map.now (is_at places.now) }
        ensures changes { IfOk result (λ found.
            found.changes.items ≡ changed_up_to map.now (sector_count map.now.sizes)) }
        ensures restless { IfOk result (λ found.
            found.restless.items ≡ restless_up_to map.now (sector_count map.now.sizes)) }
        ensures moves { IfOk result (λ found. AreMoves map.now found.moves.items) }
    {
        let mut seen = Seen::nothing(alloc);
        for number in 0..map.bounds().sectors() {
            seen.add_places(alloc, map, levels, places, number)?;
        }
        Found::by(alloc, map, seen)
    }

    // What a tick finds that saw this in all sectors.
    fn by(alloc: Global, map: &Frozen<'_>, seen: Seen) -> Result<Found, AllocError>
        requires changes { seen.changes.items
            ≡ changed_up_to map.now (sector_count map.now.sizes) }
        requires restless { seen.restless.items
            ≡ restless_up_to map.now (sector_count map.now.sizes) }
        ensures changes { IfOk result (λ found.
            found.changes.items ≡ changed_up_to map.now (sector_count map.now.sizes)) }
        ensures restless { IfOk result (λ found.
            found.restless.items ≡ restless_up_to map.now (sector_count map.now.sizes)) }
        ensures moves { IfOk result (λ found. AreMoves map.now found.moves.items) }
    {
        let Seen { changes, restless } = seen;
        let moves = moves_in_order(alloc, map, restless.as_slice())?;
        Ok(Found {
            changes,
            restless,
            moves,
        })
    }

    /// What a tick finds in a sector, with the moves in the order of its positions, by the levels
    /// of all dust of the map: at the places outside which the map rests, where these are told,
    /// and else at all components.
    pub fn in_sector<L: Leveled>(
        alloc: Global,
        map: &Frozen<'_>,
        levels: &L,
        places: Option<&Places>,
        sector: u32,
    ) -> Result<Found, AllocError>
        requires there { sector < sector_count map.now.sizes }
        requires levels { AreAllLevels map.now (L.level levels.now) }
        requires rests { IfSome places (λ places. RestsOutside map.now places.now) }
        ensures changes { IfOk result (λ found.
            found.changes.items ≡ changed_in map.now sector) }
        ensures restless { IfOk result (λ found.
            found.restless.items ≡ restless_in map.now sector) }
        ensures moves { IfOk result (λ found. found.moves.items ≡ asked_in map.now sector) }
    {
        let Seen { changes, restless } = Seen::in_sector(alloc, map, levels, places, sector)?;
        let moves = moves_among(alloc, map, restless.as_slice())?;
        Ok(Found {
            changes,
            restless,
            moves,
        })
    }

    /// What was found in each sector, one after another, with the moves in the order of the
    /// pistons' positions.
    pub fn joined(alloc: Global, pieces: Vec<Found>) -> Result<Found, AllocError>
        ensures changes { IfOk result (λ found. found.changes.items
            ≡ flat_map (λ piece. piece.changes.items) pieces.items) }
        ensures restless { IfOk result (λ found. found.restless.items
            ≡ flat_map (λ piece. piece.restless.items) pieces.items) }
        ensures moves { IfOk result (λ found. AreInOrder
            (flat_map (λ piece. piece.moves.items) pieces.items) found.moves.items) }
    {
        let mut all_changes = Vec::new(alloc);
        let mut all_restless = Vec::new(alloc);
        let mut all_moves = Vec::new(alloc);
        for piece in pieces {
            let Found {
                mut changes,
                mut restless,
                mut moves,
            } = piece;
            all_changes.append(&mut changes)?;
            all_restless.append(&mut restless)?;
            all_moves.append(&mut moves)?;
        }
        sort_moves(&mut all_moves);
        Ok(Found {
            changes: all_changes,
            restless: all_restless,
            moves: all_moves,
        })
    }
}

/// Brings moves into the order of their pistons' positions, whatever order they came in.
pub fn sort_moves(moves: &mut Vec<Move>)
    ensures { AreInOrder moves.old.items moves.new.items }
{
    moves.sort_unstable_by_key(|m| m.at);
}

// The moves that these pistons ask for, each of which would move, in the order of their positions.
// The positions are brought into that order before, since a move takes many times their room.
fn moves_in_order(
    alloc: Global,
    map: &Frozen<'_>,
    restless: &[Pos],
) -> Result<Vec<Move>, AllocError>
    ensures { IfOk result (λ moves. (level : Pos → ℕ)
        → All (λ p. is_restless (cell_on map.now) level p ≡ true) restless.now
        → AreInOrder (asked map.now level restless.now) moves.items) }
{
    let mut order = restless.to_vec(alloc)?;
    order.sort_unstable();
    moves_among(alloc, map, order.as_slice())
}

// The moves that these pistons ask for, each of which would move, in their order.
fn moves_among(alloc: Global, map: &Frozen<'_>, restless: &[Pos]) -> Result<Vec<Move>, AllocError>
    ensures { IfOk result (λ moves. (level : Pos → ℕ)
        → All (λ p. is_restless (cell_on map.now) level p ≡ true) restless.now
        → moves.items ≡ asked map.now level restless.now) }
{
    let mut moves = Vec::with_capacity(alloc, restless.len())?;
    for p in restless {
        if let Some(m) = asked_by(map, *p) {
            moves.push(m)?;
        }
    }
    Ok(moves)
}
