//! A byte put down at an index of a sector, and what that does to the chest there.
ghost use Rattle.std.specs.Prelude.{◌≡◌, ◌<◌, true, length, None, slice_set, OnOk, OnErr};
ghost use Rattle.std.specs.Arc.{arc_value};
ghost use Rattle.vx_store.specs.Chests.{slots_of_chest, Changes, SameSlots, begun};
ghost use Rattle.vx_store.specs.Codes.{cell_of, is_chest};
ghost use Rattle.vx_store.specs.MachineMarks.{AreMachineMarks};
ghost use Rattle.vx_store.specs.Placing.{CanPut};

use crate::chest_parts::ChestParts;
use crate::chests::Chests;
use crate::code::is_chest;
use crate::machine_marks::MachineMarks;
use crate::stack::SLOTS;
use std::alloc::{AllocError, Global};
use std::sync::Arc;
use vx_section::Sections;

/// Puts a byte down, in place of the one that was there. The chests are looked at only where the
/// cell is or was one, so that copies go on sharing them.
pub fn put_over(
    store: &mut Sections,
    chests: &mut ChestParts,
    index: u32,
    code: u8,
) -> Result<(), AllocError>
    requires { CanPut store.old chests.old index code }
    ensures store { OnOk result (store.new ≡ slice_set store.old index code) }
    ensures chests { OnOk result (Changes chests.old chests.new index
        (begun (is_chest (cell_of code)))) }
    ensures err { OnErr result ((store.new ≡ store.old)
        × SameSlots chests.old chests.new) }
{
    if is_chest(code) || is_chest(store.get(index)) {
        return chests.put_down(store, index, code);
    }
    store.set(index, code)
}

/// Puts a byte down whose cell has other marks than the one that was there. The marks are copied
/// before anything changes.
pub fn put_marked(
    alloc: Global,
    marks: &mut Arc<MachineMarks>,
    store: &mut Sections,
    chests: &mut ChestParts,
    index: u32,
    code: u8,
) -> Result<(), AllocError>
    requires can { CanPut store.old chests.old index code }
    requires marks { AreMachineMarks store.old (arc_value marks.old) }
    ensures store { OnOk result (store.new ≡ slice_set store.old index code) }
    ensures chests { OnOk result (Changes chests.old chests.new index
        (begun (is_chest (cell_of code)))) }
    ensures err { OnErr result ((store.new ≡ store.old)
        × SameSlots chests.old chests.new) }
    ensures marks { AreMachineMarks store.new (arc_value marks.new) }
{
    Arc::make_mut(marks)?.put_down(alloc, store, chests, index, code)
}

/// Puts a byte down, in place of the one that was there. A chest begins empty, and where one was
/// and none is any more, its slots go.
pub fn put_down(
    store: &mut Sections,
    chests: &mut Chests,
    index: u32,
    code: u8,
) -> Result<(), AllocError>
    requires { CanPut store.old chests.old index code }
    ensures store { OnOk result (store.new ≡ slice_set store.old index code) }
    ensures chests { OnOk result
        (Changes chests.old chests.new index (begun (is_chest (cell_of code)))) }
    ensures err { OnErr result ((store.new ≡ store.old) × SameSlots chests.old chests.new) }
{
    let was = is_chest(store.get(index));
    if is_chest(code) && !was {
        return put_chest(store, chests, index, code);
    }
    store.set(index, code)?;
    if is_chest(code) {
        chests.fill(index, [None; SLOTS]);
    } else if was {
        chests.remove(index);
    }
    Ok(())
}

// Puts the byte of a chest down where none was.
fn put_chest(
    store: &mut Sections,
    chests: &mut Chests,
    index: u32,
    code: u8,
) -> Result<(), AllocError>
    requires within { index < length store.old }
    requires none { slots_of_chest chests.old index ≡ None }
    ensures store { OnOk result (store.new ≡ slice_set store.old index code) }
    ensures chests { OnOk result (Changes chests.old chests.new index (begun true)) }
    ensures err { OnErr result ((store.new ≡ store.old) × SameSlots chests.old chests.new) }
{
    chests.put(index)?;
    if store.set(index, code).is_err() {
        chests.remove(index);
        return Err(AllocError);
    }
    Ok(())
}
