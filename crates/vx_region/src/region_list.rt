ghost use Rattle.std.specs.Prelude.{◌≡◌, ◌+◌, ◌<◌, [], nat_eq, length, option_map, slice_get, Some, None, IfSome, IfNone, IfOk};
ghost use Rattle.std.specs.Map.{lookup};
ghost use Rattle.std.specs.Option.{option_copied};
ghost use Rattle.vx_region.specs.Blocks.{joined, AreInPlace, Holds, AreBefore};
ghost use Rattle.vx_region.specs.Forest.{IsAscending};

mod edits;

use crate::block::{Block, FULL};
use crate::region::Region;
use crate::searching::last_that;
use std::alloc::{AllocError, Global};
use std::marker::Model;

/// Regions with their numbers, one after another in blocks. Copies share each block until one of
/// them changes it, and then the other regions of that block.
#[derive(Drop)]
pub(crate) struct RegionList {
    len: usize,
    blocks: Vec<Block>,
}

impl Model for RegionList {
    ghost use Rattle.std.specs.Prelude.{List, ◌≡◌, length};
    ghost use Rattle.vx_region.specs.Blocks.{joined, AreInPlace};
    ghost use Rattle.vx_region.specs.Regions.{Entry};

    ghost Value = { List Entry };

    ghost view = { λ a. joined a.blocks.items };

    ghost invariant = { λ a. AreInPlace 0 a.blocks.items
        × (a.len ≡ length (joined a.blocks.items)) };
}

impl RegionList {
    /// No regions.
    pub(crate) fn new(alloc: Global) -> RegionList
        ensures { result ≡ [] }
    {
        RegionList {
            len: 0,
            blocks: Vec::new(alloc),
        }
    }

    /// How many regions there are.
    pub(crate) fn len(&self) -> usize
        ensures { result ≡ length self.now }
    {
        self.len
    }

    /// The region at that place with its number, `None` behind the last one.
    pub(crate) fn nth(&self, place: usize) -> Option<(u32, &Region)>
        ensures { option_map (λ e. (e.0, e.1.now)) result ≡ slice_get self.now place }
    {
        if let Some(entry) = self.in_full_blocks(place) {
            return Some(entry);
        }
        if place >= self.len {
            return None;
        }
        self.blocks[block_of(&self.blocks, place)].at(place)
    }

    // The region at that place with its number, if all blocks before it are full. They are until a
    // region is removed.
    fn in_full_blocks(&self, place: usize) -> Option<(u32, &Region)>
        ensures { IfSome result (λ e. slice_get self.now place ≡ Some (e.0, e.1.now)) }
    {
        self.blocks.get(place / FULL)?.at(place)
    }

    /// The region of that number.
    #[inline]
    pub(crate) fn get(&self, number: u32) -> Option<&Region>
        requires { IsAscending 0 self.now }
        ensures { option_copied result ≡ lookup (nat_eq number) self.now }
    {
        if let Some(region) = self.in_place(number) {
            return Some(region);
        }
        self.found(number)
    }

    // The region of that number, if it stands one place before its number. Each does until one
    // before it is removed.
    fn in_place(&self, number: u32) -> Option<&Region>
        requires { IsAscending 0 self.now }
        ensures { IfSome result (λ region. lookup (nat_eq number) self.now ≡ Some region.now) }
    {
        let place = number.checked_sub(1)?;
        let (found, region) = self.in_full_blocks(place as usize)?;
        if found == number { Some(region) } else { None }
    }

    // The region of that number, wherever it stands. It is never inlined: most looks end before it
    // is called, and would pay for its size.
    #[inline(never)]
    fn found(&self, number: u32) -> Option<&Region>
        requires { IsAscending 0 self.now }
        ensures { option_copied result ≡ lookup (nat_eq number) self.now }
    {
        if number == 0 {
            return None;
        }
        if let Some((_, region)) = self.in_order(number) {
            return Some(region);
        }
        Some(self.nth(self.searched(number)?)?.1)
    }

    // The place of the region of that number.
    fn place_of(&self, number: u32) -> Option<usize>
        requires { IsAscending 0 self.now }
        ensures found { IfSome result (λ place.
            option_map (λ e. e.0) (slice_get self.now place) ≡ Some number) }
        ensures none { IfNone result (lookup (nat_eq number) self.now ≡ None) }
    {
        if let Some((place, _)) = self.in_order(number) {
            return Some(place);
        }
        self.searched(number)
    }

    // The region of that number and its place, if it stands in the last block that begins by it. It
    // stands there if anywhere. No clause says so: only costs rest on it.
    fn in_order(&self, number: u32) -> Option<(usize, &Region)>
        ensures { IfSome result (λ r. slice_get self.now r.0 ≡ Some (number, r.1.now)) }
    {
        let last = last_that(&self.blocks, |block| block.begins_by(number));
        let block = self.blocks.get(last)?;
        let place = block.place_near(number);
        let (found, region) = block.at(place)?;
        if found == number {
            Some((place, region))
        } else {
            None
        }
    }

    // The place of the region of that number, looked for among all. It looks at a few places, since
    // numbers ascend and only those that were removed are left out.
    fn searched(&self, number: u32) -> Option<usize>
        requires { IsAscending 0 self.now }
        ensures found { IfSome result (λ place.
            option_map (λ e. e.0) (slice_get self.now place) ≡ Some number) }
        ensures none { IfNone result (lookup (nat_eq number) self.now ≡ None) }
    {
        let mut low = self.first_place(number);
        let mut high = self.len.min(number as usize);
        while low < high {
            let middle = low + (high - low) / 2;
            let (found, _) = self.nth(middle)?;
            if found == number {
                return Some(middle);
            }
            if found < number {
                low = middle + 1;
            } else {
                high = middle;
            }
        }
        None
    }

    // A place before which no region has that number or a later one: one before its number, less as
    // many as were removed.
    fn first_place(&self, number: u32) -> usize
        requires { IsAscending 0 self.now }
        ensures { AreBefore result number self.now }
    {
        match self.nth(self.len.saturating_sub(1)) {
            Some((last, _)) => {
                let removed = (last as usize).saturating_sub(self.len);
                (number as usize).saturating_sub(removed + 1)
            }
            None => 0,
        }
    }

    /// What its blocks take their memory from.
    pub(crate) fn allocator(&self) -> Global {
        *self.blocks.allocator()
    }
}

// The index of the block in which that place lies.
fn block_of(blocks: &[Block], place: usize) -> usize
    requires in_place { AreInPlace 0 blocks.now }
    requires within { place < length (joined blocks.now) }
    ensures within { result < length blocks.now }
    ensures holds { IfSome (slice_get blocks.now result) (Holds place) }
{
    let mut low = 0;
    let mut high = blocks.len();
    while high - low > 1 {
        let middle = low + (high - low) / 2;
        if blocks[middle].start() <= place {
            low = middle;
        } else {
            high = middle;
        }
    }
    low
}

impl Clone for RegionList {
    ghost is_clone = { λ regions copy. copy ≡ regions };

    fn clone(&self) -> Result<RegionList, AllocError> {
        Ok(RegionList {
            len: self.len,
            blocks: self.blocks.clone()?,
        })
    }
}
