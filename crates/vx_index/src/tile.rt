ghost use Rattle.std.specs.Prelude.{◌≡◌, ◌≢◌, ◌<◌, ◌≤◌, ℕ, [], ◌∷◌, ◌++◌, true, if◌then◌else◌, nat_lt, filter, length, option_copied, unsigned_abs, IfOk, IfSome};
ghost use Rattle.std.specs.List.{All, AllWithin, slice_index_or};
ghost use Rattle.std.specs.List.Sorted.{IsStrictlyIncreasing};
ghost use Rattle.vx_geom.specs.Extent.{is_within};
ghost use Rattle.vx_geom.specs.declared.bounds.TheConstants.{MAX_COLUMNS_EACH_WAY};
ghost use Rattle.vx_region.specs.Subjects.{actor_of};
ghost use Rattle.vx_decide.specs.Unset.{IsUnset};
ghost use Rattle.vx_decide.specs.Verdict.{verdict};
ghost use Rattle.vx_index.specs.Tiles.{IsTile, StandsIn, TellsOf};
ghost use Rattle.vx_index.specs.Patches.{AreInOrder, AreNumbersOf, AreOf, square};
ghost use Rattle.vx_index.specs.Shapes.{Shapes, renewed_at};
ghost use Rattle.vx_index.specs.Squares.{IsSquare};

use crate::cut::Cut;
use crate::patch::Patch;
use crate::patches::{BAND, SIDE, add_any, add_patches, square};
use arrayvec::ArrayVec;
use std::alloc::{AllocError, Global};
use vx_decide::{Asker, Verdict, decide_among};
use vx_flag::{Action, Flag};
use vx_geom::{Extent, Pos};
use vx_region::{RegionSet, Subject};

/// So many regions near a place are gathered before they are asked; where there are more, all
/// regions of the tile are asked.
const MAX_HERE: usize = 64;

/// What so few regions decide costs about as much as to look it up among verdicts that are kept.
const FEW: usize = 12;

/// The regions that lie in a tile, a square of 32 by 32 columns, in the order of their numbers.
#[derive(Drop)]
pub(crate) struct Tile {
    columns: Extent,
    patches: Vec<Patch>,
    // Those of all regions of the tile, each once and in order.
    numbers: Vec<u32>,
}

impl Tile {
    /// The tile that begins at these columns, counted from the west and from the north. It costs a
    /// look at each region.
    pub(crate) fn new(
        alloc: Global,
        regions: &RegionSet,
        west: u32,
        north: u32,
    ) -> Result<Tile, AllocError>
        requires west { west ≤ MAX_COLUMNS_EACH_WAY }
        requires north { north ≤ MAX_COLUMNS_EACH_WAY }
        ensures of { IfOk result (IsTile regions.now) }
        ensures columns { IfOk result (λ tile. tile.columns ≡ square west north) }
    {
        regions.soundness();
        let mut patches = Vec::new(alloc);
        for place in 0..regions.count() {
            let (number, region) = regions.nth(place);
            let cut = Cut::of(alloc, region.shape());
            add_patches(&mut patches, number.0, &cut, west, north)?;
        }
        let numbers = numbers_of(alloc, &patches)?;
        Ok(Tile {
            columns: square(west, north),
            patches,
            numbers,
        })
    }

    /// Whether the column of the position is one of the tile's.
    pub(crate) fn holds(&self, p: Pos) -> bool
        ensures { result ≡ is_within self.now.columns p }
    {
        self.columns.holds(p)
    }

    /// A subject as one who asks of these regions. Where it is a machine it stands in the tile,
    /// and its hosts are the regions of the tile.
    pub(crate) fn asker<'a>(&'a self, regions: &'a RegionSet, subject: &'a Subject) -> Asker<'a>
        requires of { IsTile regions.now self.now }
        requires stands { StandsIn self.now.columns (actor_of subject.now) }
        ensures regions { result.regions.now ≡ regions.now }
        ensures subject { result.subject.now ≡ subject.now }
    {
        regions.soundness();
        Asker::at(regions, subject, &self.numbers)
    }

    /// The verdict of the policy of the asker's regions at a place in the tile; these flags are
    /// set nowhere. It asks the regions near the place, and where those are too many all of the
    /// tile. It takes no memory.
    pub(crate) fn decide(&self, asker: &Asker, unset: &[Flag], action: Action, p: Pos) -> Verdict
        requires of { IsTile asker.now.regions.now self.now }
        requires within { is_within self.now.columns p ≡ true }
        requires unset { All (IsUnset asker.now.regions.now) unset.now }
        ensures { result
            ≡ verdict asker.now.regions.now (actor_of asker.now.subject.now) action p }
    {
        let mut here: ArrayVec<u32, MAX_HERE> = ArrayVec::new();
        if let Some(verdict) = self.decide_near(&mut here, asker, unset, action, p) {
            return verdict;
        }
        asker.regions.soundness();
        decide_among(asker, &self.numbers, unset, action, p)
    }

    /// The verdict of the asker's regions where few of them are near the place; `None` where more
    /// are.
    pub(crate) fn decide_by_few(
        &self,
        asker: &Asker,
        unset: &[Flag],
        action: Action,
        p: Pos,
    ) -> Option<Verdict>
        requires of { IsTile asker.now.regions.now self.now }
        requires within { is_within self.now.columns p ≡ true }
        requires unset { All (IsUnset asker.now.regions.now) unset.now }
        ensures { IfSome result (λ answer. answer
            ≡ verdict asker.now.regions.now (actor_of asker.now.subject.now) action p) }
    {
        let mut here: ArrayVec<u32, FEW> = ArrayVec::new();
        self.decide_near(&mut here, asker, unset, action, p)
    }

    // The verdict of the asker's regions, asked of those near the place, which are gathered first;
    // `None` where there is no room for all of those.
    fn decide_near<const ROOM: usize>(
        &self,
        here: &mut ArrayVec<u32, ROOM>,
        asker: &Asker,
        unset: &[Flag],
        action: Action,
        p: Pos,
    ) -> Option<Verdict>
        requires of { IsTile asker.now.regions.now self.now }
        requires within { is_within self.now.columns p ≡ true }
        requires empty { here.old.items ≡ [] }
        requires unset { All (IsUnset asker.now.regions.now) unset.now }
        ensures { IfSome result (λ answer. answer
            ≡ verdict asker.now.regions.now (actor_of asker.now.subject.now) action p) }
    {
        if !self.gather(here, p) {
            return None;
        }
        asker.regions.soundness();
        Some(decide_among(asker, here, unset, action, p))
    }

    // Adds the numbers of the regions that may contain a position, in order. It stops and answers
    // false where there is no room for all.
    fn gather<const ROOM: usize>(&self, here: &mut ArrayVec<u32, ROOM>, p: Pos) -> bool
        requires ordered { AreInOrder 0 self.now.patches.items }
        requires empty { here.old.items ≡ [] }
        ensures { result ≡ true
            → AreNumbersOf (λ d. is_within d.columns p) self.now.patches.items here.new.items }
    {
        let mut last = 0;
        for patch in &self.patches {
            if last < patch.number && patch.holds(&p) {
                let Ok(()) = here.try_push(patch.number) else {
                    return false;
                };
                last = patch.number;
            }
        }
        true
    }

    /// The tile's columns.
    pub(crate) fn columns(&self) -> &Extent
        ensures { result.now ≡ self.now.columns }
    {
        &self.columns
    }

    /// The tile of the same columns, where the region of that number has this shape, or is gone.
    /// What it has of the other regions is copied; it looks at few of them.
    pub(crate) fn renewed(
        &self,
        alloc: Global,
        number: u32,
        shape: Option<&Cut>,
    ) -> Result<Tile, AllocError>
        requires { IsSquare self.now.columns }
        ensures of { (shapes : Shapes) → TellsOf shapes self.now
            → IfOk result (TellsOf (renewed_at shapes number (option_copied shape.entry))) }
        ensures columns { IfOk result (λ tile. tile.columns ≡ self.now.columns) }
    {
        let (west, north) = self.corner();
        let (before, behind) = patches_around(&self.patches, number);
        let room = self.patches.len().saturating_add(most_patches(shape));
        let mut patches = Vec::with_capacity(alloc, room)?;
        patches.extend_from_slice(before)?;
        add_any(&mut patches, number, shape, west, north)?;
        let is_here = before.len() < patches.len();
        patches.extend_from_slice(behind)?;
        let numbers = renumbered(alloc, &self.numbers, number, is_here)?;
        Ok(Tile {
            columns: self.columns,
            patches,
            numbers,
        })
    }

    // Where the tile begins, from the west and from the north.
    #[tactic(auto, using(vx_base::proofs::Signed::signed))]
    fn corner(&self) -> (u32, u32)
        ensures west { result.0 ≡ unsigned_abs self.now.columns.west }
        ensures north { result.1 ≡ unsigned_abs self.now.columns.north }
    {
        (
            self.columns.west.unsigned_abs(),
            self.columns.north.unsigned_abs(),
        )
    }
}

// The patches of the regions before that number, and those of the regions behind it: two runs of
// patches that stand in order.
fn patches_around(patches: &[Patch], number: u32) -> (&[Patch], &[Patch])
    ensures before { AreInOrder 0 patches.now
        → result.0.now ≡ filter (λ d. nat_lt d.number number) patches.now }
    ensures behind { AreInOrder 0 patches.now
        → result.1.now ≡ filter (λ d. nat_lt number d.number) patches.now }
{
    let end = patches.partition_point(|patch| patch.number < number);
    let start = end_of_run(patches, number, end);
    (&patches[..end], &patches[start..])
}

// Where the patches of that number end which stand together from `start` on. They are few, so they
// are gone through one by one.
fn end_of_run(patches: &[Patch], number: u32, start: usize) -> usize
    requires { start ≤ length patches.now }
    ensures from { start ≤ result }
    ensures within { result ≤ length patches.now }
    ensures run { AllWithin (λ d. d.number ≡ number) patches.now start result }
    ensures stops { (d : Patch) → result < length patches.now
        → (slice_index_or patches.now result d).number ≢ number }
{
    for index in start..patches.len() {
        if patches[index].number != number {
            return index;
        }
    }
    patches.len()
}

// How many patches a shape has in a tile at most. No clause says so: only room rests on it.
fn most_patches(shape: Option<&Cut>) -> usize {
    match shape {
        None => 0,
        Some(shape) if shape.is_cuboid() => 1,
        Some(_) => (SIDE / BAND) as usize,
    }
}

// The numbers of the regions that these patches are of, each once and in order.
fn numbers_of(alloc: Global, patches: &[Patch]) -> Result<Vec<u32>, AllocError>
    ensures { IfOk result (λ numbers. AreInOrder 0 patches.now
        → AreNumbersOf (λ d. true) patches.now numbers.items) }
{
    let mut numbers = Vec::new(alloc);
    let mut last = 0;
    for patch in patches {
        if last < patch.number {
            numbers.push(patch.number)?;
            last = patch.number;
        }
    }
    Ok(numbers)
}

// Numbers that stand in order, with that one in its place or without it. They are copied in two
// runs.
fn renumbered(
    alloc: Global,
    numbers: &[u32],
    number: u32,
    with_it: bool,
) -> Result<Vec<u32>, AllocError>
    ensures { IfOk result (λ new. IsStrictlyIncreasing numbers.now → new.items
        ≡ (filter (λ n. nat_lt n number) numbers.now ++ (if with_it then number ∷ [] else []))
        ++ filter (λ n. nat_lt number n) numbers.now) }
{
    let (before, behind) = numbers_around(numbers, number);
    let mut new = Vec::with_capacity(alloc, numbers.len().saturating_add(1))?;
    new.extend_from_slice(before)?;
    if with_it {
        new.push(number)?;
    }
    new.extend_from_slice(behind)?;
    Ok(new)
}

// The numbers before that one, and those behind it: two runs of numbers that stand in order.
fn numbers_around(numbers: &[u32], number: u32) -> (&[u32], &[u32])
    ensures before { IsStrictlyIncreasing numbers.now
        → result.0.now ≡ filter (λ n. nat_lt n number) numbers.now }
    ensures behind { IsStrictlyIncreasing numbers.now
        → result.1.now ≡ filter (λ n. nat_lt number n) numbers.now }
{
    let end = numbers.partition_point(|other| *other < number);
    let start = past(numbers, number, end);
    (&numbers[..end], &numbers[start..])
}

// The index behind this one where that number stands here, else this one.
fn past(numbers: &[u32], number: u32, index: usize) -> usize
    requires { index ≤ length numbers.now }
    ensures from { index ≤ result }
    ensures within { result ≤ length numbers.now }
    ensures run { AllWithin (λ n. n ≡ number) numbers.now index result }
    ensures stops { (n : ℕ) → IsStrictlyIncreasing numbers.now → result < length numbers.now
        → slice_index_or numbers.now result n ≢ number }
{
    if index < numbers.len() && numbers[index] == number {
        index + 1
    } else {
        index
    }
}
