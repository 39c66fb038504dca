ghost use Rattle.std.specs.Prelude.{◌≡◌, ◌<◌, ◌↔◌, ℕ, IsTrue, [], IsSome, slice_set, IfOk, OnOk, OnErr};
ghost use Rattle.std.specs.Option.{option_copied};
ghost use Rattle.vx_store.specs.Chests.{slots_of_chest, Changes, SameSlots, begun, refilled};
ghost use Rattle.vx_store.specs.Codes.{cell_of, is_chest};
ghost use Rattle.vx_store.specs.Placing.{CanPut};
ghost use Rattle.vx_store.specs.declared.stack.TheConstants.{SLOTS};

use crate::chest_part::ChestPart;
use crate::has_chests::HasChests;
use crate::parted::{PARTS, Parted};
use crate::stack::{SLOTS, Slot};
use std::alloc::{AllocError, Global};
use std::marker::Model;
use vx_section::Sections;

// So many indices in a row are of one group. Only what a change costs rests on the strides.
const GROUP: u32 = PARTS * PARTS;

// The chests of 17 indices in a row, of the 17 that stand 4,913 further on, and so forth.
type ChestRun = Parted<ChestPart, 1>;

// Those of 17 such runs.
type ChestGroup = Parted<ChestRun, PARTS>;

/// The slots of the chests in one sector by their indices, in 17 groups of 17 runs of 17 parts.
/// Copies share all of them. However many chests there are, a change copies one part, which has the
/// chests of at most 27 cells of a sector, and 51 pointers: to the parts of its run, to the runs of
/// its group and to the groups.
#[derive(Drop)]
pub struct ChestParts {
    groups: Parted<ChestGroup, GROUP>,
}

impl Model for ChestParts {
    ghost use Rattle.vx_store.specs.Chests.{ChestData};

    ghost Value = { ChestData };

    ghost view = { λ a. a.groups };
}

impl ChestParts {
    /// No chests.
    pub fn new(alloc: Global) -> Result<ChestParts, AllocError>
        ensures { IfOk result (λ chests. chests ≡ []) }
    {
        let run: ChestRun = Parted::new(alloc, &ChestPart::new(alloc)?)?;
        let group: ChestGroup = Parted::new(alloc, &run)?;
        Ok(ChestParts {
            groups: Parted::new(alloc, &group)?,
        })
    }

    /// The slots of the chest at that index.
    pub fn get(&self, index: u32) -> Option<&[Slot; SLOTS]>
        ensures { option_copied result ≡ slots_of_chest self.now index }
    {
        self.groups.get(index)
    }

    /// Puts something else into a slot of the chest at that index. Where copies share its part,
    /// that part is copied.
    pub fn set(&mut self, index: u32, slot: u8, content: Slot) -> Result<(), AllocError>
        requires there { IsSome (slots_of_chest self.old index) }
        requires slot { slot < SLOTS }
        ensures ok { OnOk result (Changes self.old self.new index
            (refilled slot content (slots_of_chest self.old index))) }
        ensures err { OnErr result (self.new ≡ self.old) }
    {
        self.groups.set(index, slot, content)
    }

    /// Puts a byte down in the store, in place of the one that was there, with the chest that
    /// begins or goes there. Where copies share its part, that part is copied.
    pub fn put_down(&mut self, store: &mut Sections, index: u32, code: u8) -> Result<(), AllocError>
        requires { CanPut store.old self.old index code }
        ensures store { OnOk result (store.new ≡ slice_set store.old index code) }
        ensures chests { OnOk result
            (Changes self.old self.new index (begun (is_chest (cell_of code)))) }
        ensures err { OnErr result ((store.new ≡ store.old) × SameSlots self.old self.new) }
    {
        self.groups.put_down(store, index, code)
    }

    /// Whether both have chests at the same indices, with the same in each slot.
    pub fn same(&self, other: &ChestParts) -> bool
        ensures { IsTrue result
            ↔ ((index : ℕ) → slots_of_chest self.now index ≡ slots_of_chest other.now index) }
    {
        self.groups.same(&other.groups)
    }
}

impl Clone for ChestParts {
    ghost is_clone = { λ chests copy. copy ≡ chests };

    fn clone(&self) -> Result<ChestParts, AllocError> {
        Ok(ChestParts {
            groups: self.groups.clone()?,
        })
    }
}
