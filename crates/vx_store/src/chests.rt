ghost use Rattle.std.specs.Prelude.{◌≡◌, ◌<◌, ◌↔◌, ℕ, IsTrue, [], None, Some, IsSome, OnOk, OnErr};
ghost use Rattle.std.specs.Option.{option_copied};
ghost use Rattle.vx_store.specs.declared.stack.TheConstants.{SLOTS};

use crate::stack::{SLOTS, Slot};
use std::alloc::{AllocError, Global};
use std::collections::HashMap;
use std::marker::Model;

/// The slots of the chests in one sector, by their indices.
#[derive(Drop)]
pub struct Chests {
    slots: HashMap<u32, [Slot; SLOTS]>,
}

impl Model for Chests {
    ghost use Rattle.vx_store.specs.Chests.{ChestData};

    ghost Value = { ChestData };

    ghost view = { λ a. a.slots.entries };
}

impl Chests {
    ghost use Rattle.vx_store.specs.Chests.{slots_of_chest, no_content, refilled, Changes};

    /// No chests. It takes no memory.
    pub fn new(alloc: Global) -> Chests
        ensures { result ≡ [] }
    {
        Chests {
            slots: HashMap::new(alloc),
        }
    }

    /// The slots of the chest at that index.
    pub fn get(&self, index: u32) -> Option<&[Slot; SLOTS]>
        ensures { option_copied result ≡ slots_of_chest self.now index }
    {
        self.slots.get(&index)
    }

    /// Puts an empty chest at that index, also where one stood.
    pub fn put(&mut self, index: u32) -> Result<(), AllocError>
        ensures ok { OnOk result (Changes self.old self.new index (Some no_content)) }
        ensures err { OnErr result (self.new ≡ self.old) }
    {
        match self.slots.insert(index, [None; SLOTS]) {
            Ok(_) => {
                // It made room for nine, and most parts have one chest or a few.
                self.slots.shrink_to_fit();
                Ok(())
            }
            Err(_) => Err(AllocError),
        }
    }

    /// Takes the chest at that index away, if there is one. It takes no memory.
    pub fn remove(&mut self, index: u32)
        ensures { Changes self.old self.new index None }
    {
        self.slots.remove(&index);
    }

    /// Puts something else into a slot of the chest at that index.
    pub fn set(&mut self, index: u32, slot: u8, content: Slot)
        requires there { IsSome (slots_of_chest self.old index) }
        requires slot { slot < SLOTS }
        ensures { Changes self.old self.new index
            (refilled slot content (slots_of_chest self.old index)) }
    {
        let slots = self.slots.get_mut(&index).unwrap();
        slots[slot as usize] = content;
    }

    /// Puts other things into all slots of the chest at that index.
    pub fn fill(&mut self, index: u32, slots: [Slot; SLOTS])
        requires { IsSome (slots_of_chest self.old index) }
        ensures { Changes self.old self.new index (Some slots) }
    {
        *self.slots.get_mut(&index).unwrap() = slots;
    }

    /// Whether both have chests at the same indices, with the same in each slot.
    pub fn same(&self, other: &Chests) -> bool
        ensures { IsTrue result
            ↔ ((index : ℕ) → slots_of_chest self.now index ≡ slots_of_chest other.now index) }
    {
        self.slots == other.slots
    }
}

impl Clone for Chests {
    ghost is_clone = { λ chests copy. copy ≡ chests };

    fn clone(&self) -> Result<Chests, AllocError> {
        Ok(Chests {
            slots: self.slots.clone()?,
        })
    }
}
