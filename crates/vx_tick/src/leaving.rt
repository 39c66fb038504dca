//! What a tick leaves to be looked at by the next one.
ghost use Rattle.std.specs.Prelude.{◌≡◌, ◌&&◌, not, [], ◌∷◌, ◌++◌, if◌then◌else◌, IfOk, OnOk};
ghost use Rattle.std.specs.List.{All};
ghost use Rattle.vx_block.specs.Components.{is_dust};
ghost use Rattle.vx_cells.specs.Maps.{cell_on};
ghost use Rattle.vx_power.specs.Local.{shown};
ghost use Rattle.vx_tick.specs.Leaving.{shows_same, shown_changes, hidden_changes, places_of, StaysDust};

use std::alloc::{AllocError, Global};
use vx_block::{Cell, Lamp, Level, Repeater};
use vx_cells::{Frozen, is_same};
use vx_geom::Pos;
use vx_still::Waking;

/// Where the next tick has to look after these changes, and after what moves put down. Moves rebuild
/// the map. Of the changes, which leave it as it is built, what shows other than before was turned;
/// what else changed is looked at alone, and so is each of these pistons, which would move.
pub fn left(
    alloc: Global,
    map: &Frozen<'_>,
    changes: &[(Pos, Cell)],
    moved: &[(Pos, Cell)],
    restless: &[Pos],
) -> Result<Waking, AllocError>
    requires { All (StaysDust (cell_on map.now)) changes.now }
    ensures rebuilt { IfOk result (λ waking. waking.rebuilt ≡ places_of moved.now) }
    ensures turned { IfOk result (λ waking.
        waking.turned ≡ shown_changes (cell_on map.now) changes.now) }
    ensures besides { IfOk result (λ waking. waking.besides
        ≡ hidden_changes (cell_on map.now) changes.now ++ restless.now) }
{
    let Waking {
        turned,
        mut besides,
        ..
    } = left_by_parts(alloc, map, changes)?;
    besides.extend_from_slice(restless)?;
    Ok(Waking {
        rebuilt: places_of(alloc, moved)?,
        turned,
        besides,
    })
}

// What a tick leaves to be looked at where parts change so and no piston moves.
fn left_by_parts(
    alloc: Global,
    map: &Frozen<'_>,
    changes: &[(Pos, Cell)],
) -> Result<Waking, AllocError>
    requires { All (StaysDust (cell_on map.now)) changes.now }
    ensures turned { IfOk result (λ waking.
        waking.turned ≡ shown_changes (cell_on map.now) changes.now) }
    ensures besides { IfOk result (λ waking.
        waking.besides ≡ hidden_changes (cell_on map.now) changes.now) }
{
    let mut waking = Waking::nothing(alloc);
    for (p, cell) in changes {
        look(&mut waking, map, *p, cell)?;
    }
    Ok(waking)
}

// Adds a position at which this cell stands now. Dust stood there before if it does now, and shows
// the same, so the cell that was there is not looked up then.
fn look(waking: &mut Waking, map: &Frozen<'_>, p: Pos, cell: &Cell) -> Result<(), AllocError>
    requires { is_dust cell.now ≡ is_dust (cell_on map.now p) }
    ensures turned { OnOk result (waking.new.turned ≡ waking.old.turned
        ++ shown_changes (cell_on map.now) ((p, cell.now) ∷ [])) }
    ensures besides { OnOk result (waking.new.besides ≡ waking.old.besides
        ++ hidden_changes (cell_on map.now) ((p, cell.now) ∷ [])) }
{
    if cell.is_dust() {
        return Ok(());
    }
    add_change(waking, p, cell, map.cell(p))
}

// Adds a position at which one cell has become another.
fn add_change(waking: &mut Waking, p: Pos, cell: &Cell, was: Cell) -> Result<(), AllocError>
    ensures turned { OnOk result (waking.new.turned ≡ waking.old.turned
        ++ (if shows_same cell.now was then [] else p ∷ [])) }
    ensures besides { OnOk result (waking.new.besides ≡ waking.old.besides
        ++ (if shows_same cell.now was && not (is_dust cell.now) then p ∷ [] else [])) }
{
    if !shows_same(*cell, was) {
        waking.turned.push(p)?;
    } else if !cell.is_dust() {
        waking.besides.push(p)?;
    }
    Ok(())
}

// The positions of what was put down.
fn places_of(alloc: Global, puts: &[(Pos, Cell)]) -> Result<Vec<Pos>, AllocError>
    ensures { IfOk result (λ found. found.items ≡ places_of puts.now) }
{
    let mut found = Vec::with_capacity(alloc, puts.len())?;
    for (p, _) in puts {
        found.push(*p)?;
    }
    Ok(found)
}

// Whether two cells show the same.
fn shows_same(a: Cell, b: Cell) -> bool
    ensures { result ≡ shows_same a b }
{
    let (a, b) = (shown(a), shown(b));
    is_same(&a, &b)
}

// What a cell shows to other positions.
fn shown(cell: Cell) -> Cell
    ensures { result ≡ shown cell }
{
    match cell {
        Cell::Dust(_) => Cell::Dust(Level::new(0)),
        Cell::Repeater(repeater) => Cell::Repeater(Repeater::new(
            repeater.facing(),
            repeater.delay(),
            repeater.is_on(),
            0,
        )),
        Cell::Lamp(_) => Cell::Lamp(Lamp::Off),
        other => other,
    }
}
