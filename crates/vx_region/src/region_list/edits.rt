//! What changes a list of regions. Where memory is refused, it stays as it was.
ghost use Rattle.std.specs.Prelude.{◌≡◌, ℕ, ◌+◌, ◌<◌, ◌≤◌, ◌^◌, ◌∷◌, [], ◌++◌, nat_eq, length, remove, slice_get, take, IsTrue, Some, IsSome, IfSome, IfOk, OnOk, OnErr};
ghost use Rattle.std.specs.Borrow.{sem};
ghost use Rattle.std.specs.Map.{lookup, remove_entry};
ghost use Rattle.vx_region.specs.Blocks.{joined, AreInPlace, HaveMore};
ghost use Rattle.vx_region.specs.Forest.{IsAscending};
ghost use Rattle.vx_region.specs.ListSharing.{lends_in_list};

use super::{RegionList, block_of};
use crate::block::{Block, FULL};
use crate::region::Region;
use crate::shared_region::SharedRegion;
use std::alloc::{AllocError, Global};

impl RegionList {
    /// The region of that number, to write. Where a copy shares its block, that is copied first,
    /// and so is the region.
    pub(crate) fn own(&mut self, number: u32) -> Result<&mut Region, AllocError>
        requires ascending { IsAscending 0 self.old }
        requires known { IsSome (lookup (nat_eq number) self.old) }
        ensures* writes_back { sem 𝓛 (lends_in_list self.entry number result) }
        ensures value { IfOk result (λ region. lookup (nat_eq number) self.old ≡ Some region.now) }
    {
        let place = self.place_of(number).unwrap();
        let index = block_of(&self.blocks, place);
        let block = &mut self.blocks[index];
        Ok(block.own(place)?)
    }

    /// Puts one more region behind the others.
    pub(crate) fn push(
        &mut self,
        alloc: Global,
        number: u32,
        region: SharedRegion,
    ) -> Result<(), AllocError>
        ensures ok { OnOk result (self.new ≡ self.old ++ (number, region) ∷ []) }
        ensures err { OnErr result (self.new ≡ self.old) }
    {
        let len = more(self.len, 1)?;
        put_region(&mut self.blocks, alloc, self.len, number, region)?;
        self.len = len;
        Ok(())
    }

    /// Takes away the region of that number. Where a copy shares its block, that is copied first.
    pub(crate) fn remove(&mut self, number: u32) -> Result<(), AllocError>
        requires ascending { IsAscending 0 self.old }
        requires known { IsSome (lookup (nat_eq number) self.old) }
        ensures ok { OnOk result (self.new ≡ remove_entry (nat_eq number) self.old) }
        ensures err { OnErr result (self.new ≡ self.old) }
    {
        let place = self.place_of(number).unwrap();
        remove_at(&mut self.blocks, place)?;
        self.len -= 1;
        Ok(())
    }
}

// Takes away the region at that place. Its block is joined with those beside it, where two are one
// block at most.
fn remove_at(blocks: &mut Vec<Block>, place: usize) -> Result<(), AllocError>
    requires in_place { AreInPlace 0 blocks.old.items }
    requires within { place < length (joined blocks.old.items) }
    requires fits { length (joined blocks.old.items) < 2 ^ 64 }
    ensures in_place { AreInPlace 0 blocks.new.items }
    ensures ok { OnOk result (joined blocks.new.items ≡ remove (joined blocks.old.items) place) }
    ensures err { OnErr result (blocks.new.items ≡ blocks.old.items) }
{
    let index = block_of(blocks, place);
    blocks[index].remove(place)?;
    let before = index.saturating_sub(1);
    join(blocks, index);
    join(blocks, before);
    put_in_place(blocks, before);
    Ok(())
}

// Joins the block of that index with the next one, where both are one block at most. Where memory
// is refused they stay two.
fn join(blocks: &mut Vec<Block>, index: usize)
    ensures regions { joined blocks.new.items ≡ joined blocks.old.items }
    ensures before { (count : ℕ) → count ≤ index
        → take count blocks.new.items ≡ take count blocks.old.items }
    ensures there { index < length blocks.old.items → index < length blocks.new.items }
{
    let Some(next) = next_that_fits(blocks, index) else {
        return;
    };
    if blocks[index].extend(&next).is_ok() {
        let _next = blocks.remove(index + 1);
    }
}

// A copy of the block behind that index, where it and the one of that index are one block at most.
fn next_that_fits(blocks: &[Block], index: usize) -> Option<Block>
    ensures { IfSome result (λ next. slice_get blocks.now (index + 1) ≡ Some next) }
{
    let block = blocks.get(index)?;
    let next = blocks.get(index + 1)?;
    if block.len().saturating_add(next.len()) > FULL {
        return None;
    }
    next.clone().ok()
}

// Puts each block from that index on where the one before it ends.
fn put_in_place(blocks: &mut Vec<Block>, from: usize)
    requires before { AreInPlace 0 (take from blocks.old.items) }
    requires within { from ≤ length blocks.old.items }
    requires fits { length (joined blocks.old.items) < 2 ^ 64 }
    ensures in_place { AreInPlace 0 blocks.new.items }
    ensures regions { joined blocks.new.items ≡ joined blocks.old.items }
{
    let mut start = end_of(blocks, from);
    for index in from..blocks.len() {
        let block = &mut blocks[index];
        block.put_at(start);
        start += block.len();
    }
}

// How many regions stand in the blocks before that index.
fn end_of(blocks: &[Block], index: usize) -> usize
    requires before { AreInPlace 0 (take index blocks.now) }
    requires within { index ≤ length blocks.now }
    requires fits { length (joined blocks.now) < 2 ^ 64 }
    ensures { result ≡ length (joined (take index blocks.now)) }
{
    let Some(last) = index.checked_sub(1) else {
        return 0;
    };
    let block = &blocks[last];
    block.start() + block.len()
}

// So many regions and some more. There is no memory for more of them than a `usize` can count.
fn more(len: usize, count: usize) -> Result<usize, AllocError>
    ensures { IfOk result (λ sum. sum ≡ len + count) }
{
    len.checked_add(count).ok_or(AllocError)
}

// Puts one more region behind those of the blocks, which are so many.
fn put_region(
    blocks: &mut Vec<Block>,
    alloc: Global,
    len: usize,
    number: u32,
    region: SharedRegion,
) -> Result<(), AllocError>
    requires in_place { AreInPlace 0 blocks.old.items }
    requires len { len ≡ length (joined blocks.old.items) }
    ensures ok { OnOk result
        (HaveMore blocks.old.items blocks.new.items ((number, region) ∷ [])) }
    ensures err { OnErr result (blocks.new.items ≡ blocks.old.items) }
{
    if last_has_room(blocks, 1) {
        let last = blocks.len() - 1;
        return blocks[last].push(number, region);
    }
    blocks.push(Block::of(alloc, len, number, region)?)?;
    Ok(())
}

// Whether there is a last block, and it has room for so many more regions.
fn last_has_room(blocks: &[Block], count: usize) -> bool
    ensures { IsTrue result → 0 < length blocks.now }
{
    match blocks.last() {
        Some(last) => last.len().saturating_add(count) <= FULL,
        None => false,
    }
}
