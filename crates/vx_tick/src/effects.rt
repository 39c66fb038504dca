//! What the moves that are made put down.
ghost use Rattle.std.specs.Prelude.{◌≡◌, ◌<◌, ◌++◌, Some, length, slice_get, IfOk, OnOk};
ghost use Rattle.vx_tick.specs.Ticks.{piston_as, head_of, pushed, drawn, moved_cells, effects, effects_by, put_down};

use crate::fate::Fate;
use crate::standing::Standing;
use std::alloc::{AllocError, Global};
use vx_block::Cell;
use vx_geom::Pos;
use vx_piston::Move;

/// The cells that moves with these fates put down, where this stands when each component has become
/// its next part.
pub fn put_down<S: Standing>(
    alloc: Global,
    map: &S,
    moves: &[Move],
    fates: &[(Pos, Fate)],
) -> Result<Vec<(Pos, Cell)>, AllocError>
    requires each { length fates.now ≡ length moves.now }
    ensures { IfOk result (λ cells.
        cells.items ≡ put_down (S.stands map.now) moves.now fates.now) }
{
    let mut cells = Vec::new(alloc);
    for i in 0..moves.len() {
        add_by(map, &moves[i], fates[i].1, &mut cells)?;
    }
    Ok(cells)
}

// Adds what a move with this fate puts down.
fn add_by<S: Standing>(
    map: &S,
    m: &Move,
    fate: Fate,
    cells: &mut Vec<(Pos, Cell)>,
) -> Result<(), AllocError>
    ensures { OnOk result (cells.new.items
        ≡ cells.old.items ++ effects_by (S.stands map.now) m.now fate) }
{
    match fate {
        Fate::Moved => add(map, m, cells),
        Fate::Denied(..) | Fate::Beaten(_) => Ok(()),
    }
}

// Adds what a move puts down.
fn add<S: Standing>(map: &S, m: &Move, cells: &mut Vec<(Pos, Cell)>) -> Result<(), AllocError>
    ensures { OnOk result (cells.new.items ≡ cells.old.items ++ effects (S.stands map.now) m.now) }
{
    let places = m.cells.as_slice();
    for i in 0..places.len() {
        cells.push((places[i], moved_cell(map, m, i)))?;
    }
    Ok(())
}

// What stands in a cell of a move once it is made, by the cell's number in it.
fn moved_cell<S: Standing>(map: &S, m: &Move, i: usize) -> Cell
    requires { i < length m.now.cells }
    ensures { slice_get (moved_cells (S.stands map.now) m.now) i ≡ Some result }
{
    if m.push {
        pushed_cell(map, m.at, m.cells.as_slice(), i)
    } else {
        drawn_cell(map, m.at, m.cells.as_slice(), i)
    }
}

fn pushed_cell<S: Standing>(map: &S, at: Pos, places: &[Pos], i: usize) -> Cell
    requires { i < length places.now }
    ensures { slice_get (pushed (S.stands map.now) at places.now) i ≡ Some result }
{
    match i {
        0 => piston_as(map.at(at), true),
        1 => head_of(map.at(at)),
        _ => map.at(places[i - 1]),
    }
}

fn drawn_cell<S: Standing>(map: &S, at: Pos, places: &[Pos], i: usize) -> Cell
    requires { i < length places.now }
    ensures { slice_get (drawn (S.stands map.now) at places.now) i ≡ Some result }
{
    if i == 0 {
        return piston_as(map.at(at), false);
    }
    match places.get(i + 1) {
        Some(pulled) => map.at(*pulled),
        None => Cell::Air,
    }
}

// A piston, out or in.
fn piston_as(cell: Cell, out: bool) -> Cell
    ensures { result ≡ piston_as out cell }
{
    match cell {
        Cell::Piston { facing, sticky, .. } => Cell::Piston {
            facing,
            sticky,
            extended: out,
        },
        other => other,
    }
}

// The head of a piston.
fn head_of(cell: Cell) -> Cell
    ensures { result ≡ head_of cell }
{
    match cell {
        Cell::Piston { facing, sticky, .. } => Cell::Head { facing, sticky },
        other => other,
    }
}
