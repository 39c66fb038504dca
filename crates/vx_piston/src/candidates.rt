//! What each piston would move.
ghost use Rattle.std.specs.Option.{option_to_list};
ghost use Rattle.std.specs.Prelude.{◌≡◌, ◌+◌, ℕ, true, ◌∷◌, ◌++◌, option_map};
ghost use Rattle.vx_cells.specs.Maps.{cell_on};
ghost use Rattle.vx_geom.specs.Neighbor.{neighbor};
ghost use Rattle.vx_geom.specs.Sizes.{is_inside};
ghost use Rattle.vx_geom.specs.declared.pos.Pos.{Pos};
ghost use Rattle.vx_power.specs.Laws.{dust_level};
ghost use Rattle.vx_power.specs.Local.{AreLevelsNear};
ghost use Rattle.vx_piston.specs.Moves.{most_pushed, row, if_inside, pulled, pushing, drawing, candidate, is_restless};

use crate::moves::{MAX_CELLS, MAX_ROW, Move};
use arrayvec::ArrayVec;
use vx_block::{Cell, Mobility};
use vx_cells::Frozen;
use vx_geom::{Dir, Pos};
use vx_power::{Leveled, active};

/// The move of the piston at a position, if it would make one. It is as the rules say where the
/// levels near are those of the map, and takes no memory.
pub fn candidate<L: Leveled>(map: &Frozen<'_>, levels: &L, p: Pos) -> Option<Move>
    ensures by_levels { result ≡ candidate map.now (L.level levels.now) p }
    ensures exact { AreLevelsNear (cell_on map.now) 2 p (L.level levels.now)
        → result ≡ candidate map.now (dust_level (cell_on map.now)) p }
{
    if is_restless(map, levels, p, &map.cell(p)) {
        asked_by(map, p)
    } else {
        None
    }
}

/// What a piston that would move asks for, if what stands before it lets it. No level is looked at,
/// and it takes no memory.
#[tactic(auto, unfolding(crate::specs::Moves::candidate, crate::specs::Moves::is_restless))]
pub fn asked_by(map: &Frozen<'_>, p: Pos) -> Option<Move>
    ensures { (level : Pos → ℕ) → is_restless (cell_on map.now) level p ≡ true
        → result ≡ candidate map.now level p }
{
    match map.cell(p) {
        Cell::Piston {
            facing,
            sticky,
            extended: true,
        } => Some(drawing(map, facing, sticky, p)),
        Cell::Piston { facing, .. } => pushing(map, facing, p),
        _ => None,
    }
}

/// Whether this cell, which stands at a position, is a piston that would move, if what stands
/// before it let it. It takes no memory.
#[tactic(auto, unfolding(crate::specs::Moves::is_restless))]
pub fn is_restless<L: Leveled>(map: &Frozen<'_>, levels: &L, p: Pos, cell: &Cell) -> bool
    requires { cell.now ≡ cell_on map.now p }
    ensures { result ≡ is_restless (cell_on map.now) (L.level levels.now) p }
{
    match *cell {
        Cell::Piston {
            facing,
            extended,
            ..
        } => extended != active(map, levels, p, Some(facing)),
        _ => false,
    }
}

// The move of a piston that pushes, if what stands before it lets it.
#[tactic(auto, unfolding(crate::specs::Moves::pushing))]
fn pushing(map: &Frozen<'_>, facing: Dir, p: Pos) -> Option<Move>
    ensures { result ≡ pushing map.now facing p }
{
    Some(Move {
        at: p,
        facing,
        push: true,
        cells: row(map, facing, p)?,
    })
}

// The cells that a piston which pushes takes, its own first.
fn row(map: &Frozen<'_>, facing: Dir, p: Pos) -> Option<ArrayVec<Pos, MAX_CELLS>>
    ensures { option_map (λ cells. cells.items) result
        ≡ option_map (λ ps. p ∷ ps) (row map.now facing (most_pushed + 1) (neighbor p facing)) }
{
    let mut cells = ArrayVec::new();
    let mut last = p;
    cells.push(last);
    for _ in 0..MAX_ROW {
        last = map.next(last, facing)?;
        cells.push(last);
        match map.cell(last).mobility() {
            Mobility::Moves => {}
            Mobility::Empty | Mobility::Breaks => return Some(cells),
            Mobility::Stays => return None,
        }
    }
    None
}

// The move of a piston that draws back.
#[tactic(auto, unfolding(crate::specs::Moves::drawing))]
fn drawing(map: &Frozen<'_>, facing: Dir, sticky: bool, p: Pos) -> Move
    requires { is_inside map.now.sizes p ≡ true }
    ensures { result ≡ drawing map.now facing sticky p }
{
    Move {
        at: p,
        facing,
        push: false,
        cells: drawn(map, facing, sticky, p),
    }
}

// The cells that a piston which draws back takes, its own first.
fn drawn(map: &Frozen<'_>, facing: Dir, sticky: bool, p: Pos) -> ArrayVec<Pos, MAX_CELLS>
    requires { is_inside map.now.sizes p ≡ true }
    ensures { result.items ≡ p ∷ (if_inside map.now (neighbor p facing)
        ++ pulled map.now facing sticky (neighbor (neighbor p facing) facing)) }
{
    let mut cells = ArrayVec::new();
    cells.push(p);
    let Some(head) = map.next(p, facing) else {
        return cells;
    };
    cells.push(head);
    if let Some(behind) = pulled(map, facing, sticky, head) {
        cells.push(behind);
    }
    cells
}

// The position behind a head whose cell it pulls as it draws back, if there is one.
#[tactic(auto, unfolding(crate::specs::Moves::pulled))]
fn pulled(map: &Frozen<'_>, facing: Dir, sticky: bool, head: Pos) -> Option<Pos>
    ensures { option_to_list result ≡ pulled map.now facing sticky (neighbor head facing) }
{
    if !sticky {
        return None;
    }
    let behind = map.next(head, facing)?;
    match map.cell(behind).mobility() {
        Mobility::Moves => Some(behind),
        _ => None,
    }
}
