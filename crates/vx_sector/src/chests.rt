//! What is shown of a chest, put into it and taken out of it.
ghost use Rattle.std.specs.Prelude.{◌≡◌, ◌<◌, true, not, nat_le, [], ◌∷◌, IfOk, MatchResult, Some};
ghost use Rattle.std.specs.List.{All, list_any};
ghost use Rattle.vx_store.specs.declared.stack.TheConstants.{SLOTS};
ghost use Rattle.vx_store.specs.Codes.{is_chest};
ghost use Rattle.vx_cells.specs.SectorCells.{IsWhole, IsSlot, holds, cell_at};
ghost use Rattle.vx_sector.specs.Slots.{count_in, is_filled, holds_other};
ghost use Rattle.vx_sector.specs.Acting.{refuse_if, first_some, hindrance, permitted_effect, Fits, slots_at, slot_at};

use crate::cmd::Cmd;
use crate::effect::Effect;
use crate::refusal::Refusal;
use vx_block::Cell;
use vx_cells::{Cells, MAX_COUNT, SLOTS, Slot, Stack};
use vx_geom::Pos;

/// The slots of the chest to be opened, if that cell, which stands at the position, is one.
pub fn opening(cells: &Cells, p: Pos, cell: Cell) -> Result<&[Slot; SLOTS], Refusal>
    requires held { holds cells.now p ≡ true }
    requires cell { cell ≡ cell_at cells.now p }
    ensures slots { MatchResult result
        (λ slots. (hindrance cells.now (Cmd.OpenChest p) ≡ None)
        × (slots.now ≡ slots_at cells.now p))
        (λ refusal. hindrance cells.now (Cmd.OpenChest p) ≡ Some refusal) }
    ensures each { IfOk result (λ slots. All IsSlot slots.now) }
{
    let Cell::Chest = cell else {
        return Err(Refusal::NotChest);
    };
    cells.slots(p).ok_or(Refusal::NotChest)
}

/// So many of an item put into a slot of that cell, which stands at the position, if it is a chest.
pub fn putting(
    cells: &Cells,
    p: Pos,
    cell: Cell,
    slot: u8,
    item: u16,
    count: u8,
) -> Result<Effect, Refusal>
    requires held { holds cells.now p ≡ true }
    requires cell { cell ≡ cell_at cells.now p }
    ensures effect { result ≡ permitted_effect cells.now (Cmd.Put p slot item count) }
    ensures fits { IfOk result (λ effect. Fits cells.now p effect) }
{
    let content = content_of(cells, p, cell, slot)?;
    if holds_other(item, content) {
        return Err(Refusal::OtherItem);
    }
    let held = count_in(content);
    if count == 0 || count > MAX_COUNT - held {
        return Err(Refusal::BadCount);
    }
    let count = held + count;
    Ok(Effect::NewSlot(slot, Some(Stack { item, count })))
}

/// So many taken out of a slot of that cell, which stands at the position, if it is a chest. A slot
/// from which all are taken is empty.
pub fn taking(cells: &Cells, p: Pos, cell: Cell, slot: u8, count: u8) -> Result<Effect, Refusal>
    requires held { holds cells.now p ≡ true }
    requires cell { cell ≡ cell_at cells.now p }
    ensures effect { result ≡ permitted_effect cells.now (Cmd.Take p slot count) }
    ensures fits { IfOk result (λ effect. Fits cells.now p effect) }
{
    let content = content_of(cells, p, cell, slot)?;
    if count == 0 {
        return Err(Refusal::BadCount);
    }
    let Some(stack) = content else {
        return Err(Refusal::BadCount);
    };
    if count > stack.count {
        return Err(Refusal::BadCount);
    }
    if count == stack.count {
        return Ok(Effect::NewSlot(slot, None));
    }
    let count = stack.count - count;
    Ok(Effect::NewSlot(slot, Some(Stack { count, ..stack })))
}

/// Whether that cell, which stands at the position, is a chest that holds something.
pub fn is_in_use(cells: &Cells, p: Pos, cell: Cell) -> bool
    requires held { holds cells.now p ≡ true }
    requires whole { IsWhole cells.now }
    requires cell { cell ≡ cell_at cells.now p }
    ensures { result ≡ list_any is_filled (slots_at cells.now p) }
{
    let Cell::Chest = cell else {
        return false;
    };
    match cells.slots(p) {
        Some(slots) => any_filled(slots),
        None => false,
    }
}

/// Whether any of the slots holds something.
pub fn any_filled(slots: &[Slot]) -> bool
    ensures { result ≡ list_any is_filled slots.now }
{
    slots.iter().any(|slot| slot.is_some())
}

// What is in a slot of that cell, which stands at the position, if it is a chest.
fn content_of(cells: &Cells, p: Pos, cell: Cell, slot: u8) -> Result<Slot, Refusal>
    requires held { holds cells.now p ≡ true }
    requires cell { cell ≡ cell_at cells.now p }
    ensures { MatchResult result
        (λ content. (is_chest (cell_at cells.now p) ≡ true) × (slot < SLOTS)
        × (content ≡ slot_at cells.now p slot) × IsSlot content)
        (λ refusal. first_some (refuse_if (not (is_chest (cell_at cells.now p))) Refusal.NotChest
        ∷ refuse_if (nat_le SLOTS slot) Refusal.NoSlot ∷ []) ≡ Some refusal) }
{
    let slots = opening(cells, p, cell)?;
    let index = usize::from(slot);
    if index >= SLOTS {
        return Err(Refusal::NoSlot);
    }
    Ok(slots[index])
}

// How many items a slot holds.
fn count_in(content: Slot) -> u8
    ensures { result ≡ count_in content }
{
    match content {
        Some(stack) => stack.count,
        None => 0,
    }
}

// Whether a slot holds another item than this one.
fn holds_other(item: u16, content: Slot) -> bool
    ensures { result ≡ holds_other item content }
{
    match content {
        Some(stack) => stack.item != item,
        None => false,
    }
}
