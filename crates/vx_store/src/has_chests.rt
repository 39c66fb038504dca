ghost use Rattle.std.specs.Prelude.{◌≡◌, ◌<◌, ◌↔◌, ℕ, IsTrue, IsSome, slice_set, OnOk, OnErr};
ghost use Rattle.std.specs.Option.{option_copied};
ghost use Rattle.vx_store.specs.Chests.{ChestData, slots_of_chest, Changes, SameSlots, begun, refilled};
ghost use Rattle.vx_store.specs.Codes.{cell_of, is_chest};
ghost use Rattle.vx_store.specs.Placing.{CanPut};
ghost use Rattle.vx_store.specs.declared.stack.TheConstants.{SLOTS};

use crate::stack::{SLOTS, Slot};
use std::alloc::AllocError;
use vx_section::Sections;

/// What has chests of a sector, and shares them with its copies until one of them changes.
pub trait HasChests: Clone + Drop {
    /// The chests.
    ghost chests: { Self → ChestData };

    /// The slots of the chest at that index.
    fn get(&self, index: u32) -> Option<&[Slot; SLOTS]>
        ensures { option_copied result ≡ slots_of_chest (chests self.now) index };

    /// Puts something else into a slot of the chest at that index.
    fn set(&mut self, index: u32, slot: u8, content: Slot) -> Result<(), AllocError>
        requires there { IsSome (slots_of_chest (chests self.old) index) }
        requires slot { slot < SLOTS }
        ensures ok { OnOk result (Changes (chests self.old) (chests self.new) index
            (refilled slot content (slots_of_chest (chests self.old) index))) }
        ensures err { OnErr result (chests self.new ≡ chests self.old) };

    /// Puts a byte down in the store, in place of the one that was there, with the chest that
    /// begins or goes there.
    fn put_down(&mut self, store: &mut Sections, index: u32, code: u8) -> Result<(), AllocError>
        requires { CanPut store.old (chests self.old) index code }
        ensures store { OnOk result (store.new ≡ slice_set store.old index code) }
        ensures chests { OnOk result
            (Changes (chests self.old) (chests self.new) index (begun (is_chest (cell_of code)))) }
        ensures err { OnErr result
            ((store.new ≡ store.old) × SameSlots (chests self.old) (chests self.new)) };

    /// Whether both have chests at the same indices, with the same in each slot.
    fn same(&self, other: &Self) -> bool
        ensures { IsTrue result ↔ ((index : ℕ)
            → slots_of_chest (chests self.now) index ≡ slots_of_chest (chests other.now) index) };

    /// A copy has the same chests.
    ghost copied: { (held copy : Self) → Self.is_clone held copy → chests copy ≡ chests held };
}
