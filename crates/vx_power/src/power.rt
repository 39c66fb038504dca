//! What the power of dust reaches: conductors that it powers, lamps and pistons that it makes
//! active.
ghost use Rattle.std.specs.Prelude.{◌≡◌, ◌&&◌, ◌||◌, not, nat_lt, IfSome};
ghost use Rattle.vx_block.specs.Components.{is_dust};
ghost use Rattle.vx_cells.specs.Maps.{cell_on};
ghost use Rattle.vx_cells.specs.Nearby.{HasAround};
ghost use Rattle.vx_geom.specs.Dirs.{opposite};
ghost use Rattle.vx_power.specs.Laws.{dust_level};
ghost use Rattle.vx_power.specs.Local.{AreLevelsNear};
ghost use Rattle.vx_power.specs.Signals.{reaches, gives, is_source, has_source, is_powered, activates, is_front, is_active};

use crate::dust::points;
use crate::leveled::Leveled;
use crate::nearby::next_cell;
use crate::signals::{drives, gives};
use vx_block::{Cell, Side};
use vx_cells::{Cells, Frozen};
use vx_geom::{Dir, Pos};

// Whether dust at a position reaches the cell from which it lies in that direction.
fn reaches(map: &Frozen<'_>, dust: Pos, dir: Dir) -> bool
    ensures { result ≡ reaches (cell_on map.now) dust dir }
{
    match dir {
        Dir::Up => true,
        Dir::Down => false,
        Dir::East => points(map, dust, Side::West),
        Dir::West => points(map, dust, Side::East),
        Dir::South => points(map, dust, Side::North),
        Dir::North => points(map, dust, Side::South),
    }
}

/// Whether a conductor stands at a position that is powered, by a strong source or by dust. It is
/// as the rules say where the levels near are those of the map.
#[tactic(auto, unfolding(crate::specs::Signals::is_powered), using(crate::proofs::Sources::sources))]
pub fn powered<L: Leveled>(map: &Frozen<'_>, levels: &L, p: Pos) -> bool
    ensures by_levels { result ≡ is_powered (cell_on map.now) (L.level levels.now) p }
    ensures exact { AreLevelsNear (cell_on map.now) 1 p (L.level levels.now)
        → result ≡ is_powered (cell_on map.now) (dust_level (cell_on map.now)) p }
{
    map.has_conductor(p) && has_source(map, levels, p)
}

// Whether some neighbor drives what stands at a position, or is dust that powers it. Direction by
// direction, so that each is compiled for itself.
#[tactic(auto, unfolding(crate::specs::Signals::has_source))]
fn has_source<L: Leveled>(map: &Frozen<'_>, levels: &L, p: Pos) -> bool
    ensures { result ≡ has_source (cell_on map.now) (L.level levels.now) p }
{
    let around = map.around(p);
    is_source(map, around, levels, p, Dir::East)
        || is_source(map, around, levels, p, Dir::West)
        || is_source(map, around, levels, p, Dir::Up)
        || is_source(map, around, levels, p, Dir::Down)
        || is_source(map, around, levels, p, Dir::South)
        || is_source(map, around, levels, p, Dir::North)
}

// Whether the neighbor in that direction is one of these.
#[inline(always)]
#[tactic(auto, unfolding(crate::specs::Signals::is_source, crate::specs::Signals::drives_from, crate::specs::Signals::dust_powers))]
fn is_source<L: Leveled>(
    map: &Frozen<'_>,
    around: Option<&Cells>,
    levels: &L,
    p: Pos,
    dir: Dir,
) -> bool
    requires { IfSome around (λ cells. HasAround map.now cells.now p) }
    ensures { result ≡ is_source (cell_on map.now) (L.level levels.now) p dir }
{
    match next_cell(map, around, p, dir) {
        Some((next, cell)) => {
            drives(cell, dir.opposite()) || has_power_towards(map, levels, next, &cell, dir)
        }
        None => false,
    }
}

// Whether this cell, which stands at a position, is dust with power that reaches the cell from
// which it lies in that direction.
fn has_power_towards<L: Leveled>(
    map: &Frozen<'_>,
    levels: &L,
    next: Pos,
    cell: &Cell,
    dir: Dir,
) -> bool
    ensures { result ≡ (is_dust cell.now && nat_lt 0 (L.level levels.now next)
        && reaches (cell_on map.now) next dir) }
{
    cell.is_dust() && 0 < levels.at(next) && reaches(map, next, dir)
}

/// Whether what stands in that direction from a position makes a lamp, a piston or a repeater there
/// active. `around` is the sector that has all around the position, if there is one.
#[inline(always)]
#[tactic(auto, unfolding(crate::specs::Signals::activates, crate::specs::Signals::is_powered, crate::specs::Signals::dust_powers))]
pub fn activates<L: Leveled>(
    map: &Frozen<'_>,
    around: Option<&Cells>,
    levels: &L,
    p: Pos,
    dir: Dir,
) -> bool
    requires { IfSome around (λ cells. HasAround map.now cells.now p) }
    ensures { result ≡ activates (cell_on map.now) (L.level levels.now) p dir }
{
    match next_cell(map, around, p, dir) {
        Some((next, cell)) => acts(map, levels, next, &cell, dir),
        None => false,
    }
}

// Whether this cell, which stands at a position, makes active what it lies in that direction from.
#[tactic(auto, unfolding(crate::specs::Signals::is_powered), using(crate::proofs::Sources::sources))]
fn acts<L: Leveled>(map: &Frozen<'_>, levels: &L, next: Pos, cell: &Cell, dir: Dir) -> bool
    requires { cell.now ≡ cell_on map.now next }
    ensures { result ≡ (gives cell.now (opposite dir)
        || is_powered (cell_on map.now) (L.level levels.now) next
        || (is_dust cell.now && nat_lt 0 (L.level levels.now next)
        && reaches (cell_on map.now) next dir)) }
{
    gives(*cell, dir.opposite())
        || (cell.conducts() && has_source(map, levels, next))
        || has_power_towards(map, levels, next, cell, dir)
}

/// Whether a lamp or a piston at a position is active. A piston is not made so from its front. It
/// is as the rules say where the levels near are those of the map.
pub fn active<L: Leveled>(map: &Frozen<'_>, levels: &L, p: Pos, front: Option<Dir>) -> bool
    ensures by_levels { result ≡ is_active (cell_on map.now) (L.level levels.now) front p }
    ensures exact { AreLevelsNear (cell_on map.now) 2 p (L.level levels.now)
        → result ≡ is_active (cell_on map.now) (dust_level (cell_on map.now)) front p }
{
    is_activated(map, levels, p, front)
}

// Whether some neighbor makes a lamp or a piston at a position active.
#[tactic(auto, unfolding(crate::specs::Signals::is_active))]
fn is_activated<L: Leveled>(map: &Frozen<'_>, levels: &L, p: Pos, front: Option<Dir>) -> bool
    ensures { result ≡ is_active (cell_on map.now) (L.level levels.now) front p }
{
    let around = map.around(p);
    activates_past(map, around, levels, front, p, Dir::East)
        || activates_past(map, around, levels, front, p, Dir::West)
        || activates_past(map, around, levels, front, p, Dir::Up)
        || activates_past(map, around, levels, front, p, Dir::Down)
        || activates_past(map, around, levels, front, p, Dir::South)
        || activates_past(map, around, levels, front, p, Dir::North)
}

// Whether what stands in that direction makes a lamp or a piston at a position active, and it is
// not that of its front.
#[inline(always)]
fn activates_past<L: Leveled>(
    map: &Frozen<'_>,
    around: Option<&Cells>,
    levels: &L,
    front: Option<Dir>,
    p: Pos,
    dir: Dir,
) -> bool
    requires { IfSome around (λ cells. HasAround map.now cells.now p) }
    ensures { result ≡ (not (is_front front dir)
        && activates (cell_on map.now) (L.level levels.now) p dir) }
{
    !is_front(front, dir) && activates(map, around, levels, p, dir)
}

fn is_front(front: Option<Dir>, dir: Dir) -> bool
    ensures { result ≡ is_front front dir }
{
    match front {
        Some(front) => front.is(dir),
        None => false,
    }
}
