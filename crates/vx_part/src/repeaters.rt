//! Repeaters: what locks them, and how they count.
ghost use Rattle.std.specs.Prelude.{◌≡◌, ◌<◌, IfSome};
ghost use Rattle.vx_block.specs.States.{ticks_of};
ghost use Rattle.vx_cells.specs.Maps.{cell_on};
ghost use Rattle.vx_cells.specs.Nearby.{HasAround};
ghost use Rattle.vx_part.specs.Parts.{is_on_towards, locks_from, is_locked, next_wait, counted, next_repeater};

use vx_block::{Cell, Repeater, Side};
use vx_cells::{Cells, Frozen};
use vx_geom::Pos;
use vx_power::{Leveled, activates, next_cell};

// Whether a cell is a repeater that is on and faces that side.
fn is_on_towards(side: Side, cell: Cell) -> bool
    ensures { result ≡ is_on_towards side cell }
{
    match cell {
        Cell::Repeater(repeater) => repeater.is_on() && repeater.facing().is(side),
        _ => false,
    }
}

#[tactic(auto, unfolding(crate::specs::Parts::locks_from))]
fn locks_from(map: &Frozen<'_>, around: Option<&Cells>, p: Pos, side: Side) -> bool
    requires { IfSome around (λ cells. HasAround map.now cells.now p) }
    ensures { result ≡ locks_from (cell_on map.now) p side }
{
    match next_cell(map, around, p, side.dir()) {
        Some((_, cell)) => is_on_towards(side.back(), cell),
        None => false,
    }
}

// Whether a repeater at a position that faces that way is locked.
#[tactic(auto, unfolding(crate::specs::Parts::is_locked))]
fn is_locked(map: &Frozen<'_>, around: Option<&Cells>, p: Pos, facing: Side) -> bool
    requires { IfSome around (λ cells. HasAround map.now cells.now p) }
    ensures { result ≡ is_locked (cell_on map.now) p facing }
{
    let right = facing.right();
    locks_from(map, around, p, right) || locks_from(map, around, p, right.back())
}

/// What a repeater at a position is after the tick.
#[tactic(auto, unfolding(crate::specs::Parts::next_repeater))]
pub fn next_repeater<L: Leveled>(
    map: &Frozen<'_>,
    levels: &L,
    p: Pos,
    repeater: Repeater,
) -> Repeater
    ensures { result ≡ next_repeater (cell_on map.now) (L.level levels.now) p repeater }
{
    let around = map.around(p);
    if is_locked(map, around, p, repeater.facing()) {
        return repeater;
    }
    let behind = repeater.facing().back().dir();
    counted(repeater, activates(map, around, levels, p, behind))
}

// What a repeater that is not locked is after a tick with this input.
fn counted(repeater: Repeater, input: bool) -> Repeater
    ensures { result ≡ counted repeater input }
{
    if repeater.wait() == 0 && input == repeater.is_on() {
        return repeater;
    }
    let wait = next_wait(repeater);
    let is_on = if wait == 0 {
        !repeater.is_on() || input
    } else {
        repeater.is_on()
    };
    Repeater::new(repeater.facing(), repeater.delay(), is_on, wait)
}

// What is left of a repeater's count after a tick.
fn next_wait(repeater: Repeater) -> u8
    ensures value { result ≡ next_wait repeater }
    ensures within { result < ticks_of repeater.delay }
{
    match repeater.wait() {
        0 => repeater.delay().ticks() - 1,
        wait => wait - 1,
    }
}
