ghost use Rattle.std.specs.Prelude.{◌≡◌, Some, IfOk};
ghost use Rattle.std.specs.Fmt.{DisplaysOnOk};
ghost use Rattle.vx_sector.specs.Texts.{slot_text};

use crate::chests::any_filled;
use std::alloc::{AllocError, Global};
use std::fmt;
use std::marker::Model;
use std::sync::Arc;
use vx_cells::{SLOTS, Slot};

/// What a chest held when it was opened, slot by slot. Copies share it, so that an answer is small.
#[derive(Debug, Drop)]
pub struct Contents {
    slots: Arc<[Slot; SLOTS]>,
}

impl Model for Contents {
    ghost use Rattle.std.specs.Prelude.{List, Option};
    ghost use Rattle.std.specs.Arc.{arc_value};
    ghost use Rattle.vx_store.specs.declared.stack.Stack.{Stack};

    ghost Value = { List (Option Stack) };

    ghost view = { λ a. arc_value a.slots };
}

impl Contents {
    /// These slots.
    pub fn new(alloc: Global, slots: [Slot; SLOTS]) -> Result<Contents, AllocError>
        ensures { IfOk result (λ contents. contents ≡ slots) }
    {
        Ok(Contents {
            slots: Arc::new(alloc, slots)?,
        })
    }

    /// The slots, from the first on.
    pub fn slots(&self) -> &[Slot; SLOTS]
        ensures { result.now ≡ self.now }
    {
        &self.slots
    }

    /// A copy, which shares the slots.
    pub fn try_clone(&self) -> Result<Contents, AllocError>
        ensures { IfOk result (λ copy. copy ≡ self.now) }
    {
        Ok(Contents {
            slots: Arc::try_clone(&self.slots)?,
        })
    }
}

impl PartialEq for Contents {
    ghost use Rattle.std.specs.Cmp.{partial_equiv_from_equiv};
    ghost use Rattle.vx_store.specs.SameSlots.{same_slots, slots_equiv};

    ghost eq = { same_slots };

    ghost laws = { partial_equiv_from_equiv slots_equiv };

    #[tactic(auto, unfolding(vx_store::specs::SameSlots::same_slots))]
    fn eq(&self, other: &Contents) -> bool {
        *self.slots == *other.slots
    }
}

impl Eq for Contents {
    ghost use Rattle.vx_store.specs.SameSlots.{slots_equiv};

    ghost laws = { slots_equiv };
}

/// Each filled slot by its number, with the item and how many of it.
impl fmt::Display for Contents {
    ghost use Rattle.vx_sector.specs.Texts.{contents_text};

    ghost output = { λ contents. Some (contents_text contents) };

    fn fmt<W: fmt::Write>(&self, f: &mut fmt::Formatter<W>) -> fmt::Result {
        let slots = self.slots().as_slice();
        if !any_filled(slots) {
            return write!(f, " nothing");
        }
        for (number, slot) in slots.iter().enumerate() {
            write_slot(number, slot, f)?;
        }
        Ok(())
    }
}

// Writes a slot, if it is filled.
fn write_slot<W: fmt::Write>(number: usize, slot: &Slot, f: &mut fmt::Formatter<W>) -> fmt::Result
    ensures { DisplaysOnOk W.write_str_gives f.old result (Some (slot_text number slot.now)) f.new }
{
    let Some(stack) = slot else {
        return Ok(());
    };
    let (item, count) = (stack.item, stack.count);
    write!(f, " {number}={item}x{count}")
}
