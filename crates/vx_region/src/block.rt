ghost use Rattle.std.specs.Prelude.{◌≡◌, ◌+◌, ◌-◌, ◌<◌, [], ◌∷◌, ◌++◌, length, remove, option_map, slice_get, Some, IfOk, OnOk, OnErr};
ghost use Rattle.std.specs.Borrow.{sem};
ghost use Rattle.vx_region.specs.Blocks.{Holds, entry_at, with_entries};
ghost use Rattle.vx_region.specs.BlockSharing.{lends_in_block};

use crate::region::Region;
use crate::searching::last_that;
use crate::shared_region::SharedRegion;
use std::alloc::{AllocError, Global};
use std::marker::Model;
use std::sync::Arc;

/// So many regions stand in a block at most.
pub(crate) const FULL: usize = 32;

/// Regions with their numbers that stand one after another in a list. Copies share them until one
/// of them changes some.
#[derive(Drop)]
pub(crate) struct Block {
    // The place of the first one in the list.
    start: usize,
    // No number is lower. No clause says so: only costs rest on it.
    first: u32,
    entries: Arc<Vec<(u32, SharedRegion)>>,
}

impl Model for Block {
    ghost use Rattle.std.specs.Arc.{arc_value};
    ghost use Rattle.vx_region.specs.Blocks.{BlockData};

    ghost Value = { BlockData };

    ghost view = { λ a. record {
      start = a.start;
      entries = (arc_value a.entries).items;
    } };
}

impl Block {
    /// A block of one region, with room for all that it may have.
    pub(crate) fn of(
        alloc: Global,
        start: usize,
        number: u32,
        region: SharedRegion,
    ) -> Result<Block, AllocError>
        ensures start { IfOk result (λ block. block.start ≡ start) }
        ensures entries { IfOk result (λ block. block.entries ≡ (number, region) ∷ []) }
    {
        let mut entries = Vec::with_capacity(alloc, FULL)?;
        entries.push((number, region))?;
        Ok(Block {
            start,
            first: number,
            entries: Arc::new(alloc, entries)?,
        })
    }

    /// The place of its first region in the list.
    pub(crate) fn start(&self) -> usize
        ensures { result ≡ self.now.start }
    {
        self.start
    }

    /// How many regions stand in it.
    pub(crate) fn len(&self) -> usize
        ensures { result ≡ length self.now.entries }
    {
        self.entries.len()
    }

    /// The region at a place of the list with its number, if that place lies in the block.
    pub(crate) fn at(&self, place: usize) -> Option<(u32, &Region)>
        ensures { option_map (λ e. (e.0, e.1.now)) result ≡ entry_at self.now place }
    {
        let inside = place.checked_sub(self.start)?;
        let (number, region) = self.entries.get(inside)?;
        Some((*number, region.region()))
    }

    /// Whether the block begins with that number or a lower one.
    pub(crate) fn begins_by(&self, number: u32) -> bool {
        self.first <= number
    }

    /// The place of the list where the region of that number stands, if it stands in the block. No
    /// clause says so: only costs rest on it.
    pub(crate) fn place_near(&self, number: u32) -> usize {
        let inside = last_that(&self.entries, |entry| entry.0 <= number);
        self.start.wrapping_add(inside)
    }

    /// The region at a place of the list, to write. Where a copy shares the block, it is copied
    /// first, and so is the region.
    pub(crate) fn own(&mut self, place: usize) -> Result<&mut Region, AllocError>
        requires { Holds place self.old }
        ensures* writes_back { sem 𝓛 (lends_in_block self.entry place result) }
        ensures value { IfOk result (λ region.
            option_map (λ e. e.1) (slice_get self.old.entries (place - self.old.start))
            ≡ Some region.now) }
    {
        let inside = place - self.start;
        let entries = Arc::make_mut(&mut self.entries)?;
        let entry = &mut entries[inside];
        entry.1.own()
    }

    /// Puts one more region behind the others.
    pub(crate) fn push(&mut self, number: u32, region: SharedRegion) -> Result<(), AllocError>
        ensures ok { OnOk result
            (self.new ≡ with_entries self.old (self.old.entries ++ (number, region) ∷ [])) }
        ensures err { OnErr result (self.new ≡ self.old) }
    {
        Arc::make_mut(&mut self.entries)?.push((number, region))?;
        Ok(())
    }

    /// Puts the regions of another block behind those of this one.
    pub(crate) fn extend(&mut self, other: &Block) -> Result<(), AllocError>
        ensures ok { OnOk result
            (self.new ≡ with_entries self.old (self.old.entries ++ other.now.entries)) }
        ensures err { OnErr result (self.new ≡ self.old) }
    {
        Arc::make_mut(&mut self.entries)?.extend_from_slice(&other.entries)
    }

    /// Takes away the region at that place of the list. Where a copy shares the block, it is copied
    /// first.
    pub(crate) fn remove(&mut self, place: usize) -> Result<(), AllocError>
        requires { Holds place self.old }
        ensures ok { OnOk result (self.new
            ≡ with_entries self.old (remove self.old.entries (place - self.old.start))) }
        ensures err { OnErr result (self.new ≡ self.old) }
    {
        let inside = place - self.start;
        let _removed = Arc::make_mut(&mut self.entries)?.remove(inside);
        Ok(())
    }

    /// Puts the block at another place of the list.
    pub(crate) fn put_at(&mut self, start: usize)
        ensures start { self.new.start ≡ start }
        ensures entries { self.new.entries ≡ self.old.entries }
    {
        self.start = start;
    }
}

impl Clone for Block {
    ghost is_clone = { λ block copy. copy ≡ block };

    fn clone(&self) -> Result<Block, AllocError> {
        Ok(Block {
            start: self.start,
            first: self.first,
            entries: Arc::try_clone(&self.entries)?,
        })
    }
}
