//! The cells of a sector as a value: copies, and what is equal.
ghost use Rattle.std.specs.Prelude.{◌≤◌};
ghost use Rattle.vx_cells.specs.SectorCells.{IsSlot};

use crate::same::same;
use std::alloc::{AllocError, Global};
use std::process::Abort;
use std::test::Fail;
use vx_block::{Cell, Level};
use vx_cells::{Cells, Slot, Stack};
use vx_geom::{Bounds, LOW_HEIGHT, Pos};

// A sector of a world that is so many sectors wide, each of one chunk.
fn sector(alloc: Global, sectors: u8, number: u32) -> Result<Cells, Fail> {
    let bounds = Bounds::new(sectors, 1, 1, LOW_HEIGHT).ok_or("no bounds")?;
    if number < bounds.sectors() {
        Ok(Cells::new(alloc, bounds, number)?)
    } else {
        Err("no such sector")?
    }
}

fn put(rt: &impl Abort, cells: &mut Cells, p: Pos, cell: Cell) -> Result<(), AllocError> {
    assert!(rt; cells.holds(p));
    cells.set(p, cell)
}

// Puts that many of an item into a slot of the chest at that position, and nothing for 0.
fn fill(rt: &impl Abort, cells: &mut Cells, p: Pos, slot: u8, count: u8) {
    assert!(rt; cells.holds(p));
    assert!(rt; slot < 27 && count <= 64);
    let filled = match cells.get(p) {
        Cell::Chest if count == 0 => cells.set_slot(p, slot, None),
        Cell::Chest => cells.set_slot(p, slot, stack(count)),
        _ => panic!(rt; "no chest"),
    };
    assert!(rt; filled.is_ok());
}

fn stack(count: u8) -> Slot
    requires least { 1 ≤ count }
    requires most { count ≤ 64 }
    ensures { IsSlot result }
{
    Some(Stack { item: 7, count })
}

#[test]
fn a_copy_is_the_same_until_one_changes(rt: HostRuntime) -> Result<(), Fail> {
    let mut cells = sector(rt.alloc(), 2, 0)?;
    copy_and_change(&rt, &mut cells)
}

fn copy_and_change(rt: &impl Abort, cells: &mut Cells) -> Result<(), Fail> {
    put(rt, cells, Pos::new(3, 4, 5), Cell::Chest)?;
    let mut copy = cells.try_clone()?;
    change(rt, cells, &mut copy);
    Ok(())
}

fn change(rt: &impl Abort, cells: &mut Cells, copy: &mut Cells) {
    compares(rt, cells, copy, true);
    fill_each(rt, cells, copy);
    put_each(rt, cells, copy);
}

fn fill_each(rt: &impl Abort, cells: &mut Cells, copy: &mut Cells) {
    for (slot, count) in [(5, 3), (5, 4), (6, 3)] {
        fill_both(rt, cells, copy, Pos::new(3, 4, 5), slot, count);
    }
}

fn put_each(rt: &impl Abort, cells: &mut Cells, copy: &mut Cells) {
    for cell in [Cell::Stone, Cell::Glass, Cell::Chest, Cell::Air] {
        put_both(rt, cells, copy, Pos::new(4, 4, 5), cell);
    }
}

fn fill_both(rt: &impl Abort, cells: &mut Cells, copy: &mut Cells, p: Pos, slot: u8, count: u8) {
    fill(rt, copy, p, slot, count);
    compares(rt, cells, copy, false);
    fill(rt, cells, p, slot, count);
    compares(rt, cells, copy, true);
}

fn put_both(rt: &impl Abort, cells: &mut Cells, copy: &mut Cells, p: Pos, cell: Cell) {
    let again = cell;
    assert!(rt; put(rt, cells, p, cell).is_ok());
    compares(rt, cells, copy, false);
    assert!(rt; put(rt, copy, p, again).is_ok());
    compares(rt, cells, copy, true);
}

fn compares(rt: &impl Abort, cells: &Cells, other: &Cells, due: bool) {
    same(rt, &(*cells == *other, *cells != *other), &(due, !due));
}

#[test]
fn sectors_of_two_numbers_or_sizes_differ(rt: HostRuntime) -> Result<(), Fail> {
    let west = sector(rt.alloc(), 2, 0)?;
    for (sectors, number, due) in [(2, 0, true), (2, 1, false), (3, 0, false)] {
        is_same(&rt, rt.alloc(), &west, sectors, number, due)?;
    }
    Ok(())
}

// Whether this sector is the one of that number, of so many side by side, with nothing but air.
fn is_same(
    rt: &impl Abort,
    alloc: Global,
    west: &Cells,
    sectors: u8,
    number: u32,
    due: bool,
) -> Result<(), Fail> {
    let other = sector(alloc, sectors, number)?;
    compares(rt, west, &other, due);
    Ok(())
}

// Sixteen kinds of cells beside air: dust of each level but one, stone and glass.
#[test]
fn a_section_goes_on_to_the_form_that_its_kinds_need(rt: HostRuntime) -> Result<(), Fail> {
    let mut cells = sector(rt.alloc(), 1, 0)?;
    is_in_form(&rt, &cells, 1);
    put(&rt, &mut cells, Pos::new(0, 0, 0), Cell::Stone)?;
    is_in_form(&rt, &cells, 2);
    put_levels(&rt, &mut cells)?;
    is_in_form(&rt, &cells, 2);
    put(&rt, &mut cells, Pos::new(15, 15, 15), Cell::Glass)?;
    is_in_form(&rt, &cells, 3);
    clear(&rt, &mut cells)?;
    is_in_form(&rt, &cells, 3);
    Ok(())
}

// Dust of fourteen levels, in one section.
fn put_levels(rt: &impl Abort, cells: &mut Cells) -> Result<(), AllocError> {
    for level in 1..15_u8 {
        let dust = Cell::Dust(Level::new(level));
        put(rt, cells, Pos::new(i32::from(level), 7, 15), dust)?;
    }
    Ok(())
}

// Air in place of all that was put down.
fn clear(rt: &impl Abort, cells: &mut Cells) -> Result<(), AllocError> {
    put(rt, cells, Pos::new(0, 0, 0), Cell::Air)?;
    put(rt, cells, Pos::new(15, 15, 15), Cell::Air)?;
    for x in 1..15_i32 {
        put(rt, cells, Pos::new(x, 7, 15), Cell::Air)?;
    }
    Ok(())
}

// The lowest section is kept in that form, and the one over it, where nothing was put down, in the
// first.
fn is_in_form(rt: &impl Abort, cells: &Cells, due: u8) {
    for (y, form) in [(0, due), (15, due), (16, 1)] {
        let p = Pos::new(3, y, 9);
        assert!(rt; cells.holds(p));
        same(rt, &cells.form(p), &form);
    }
}
