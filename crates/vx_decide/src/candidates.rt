ghost use Rattle.std.specs.Prelude.{◌≡◌, ◌<◌, length, slice_get, slice_index_or, IsSome, Some};
ghost use Rattle.vx_decide.specs.Candidates.{AreNumbers, regions_at};
ghost use Rattle.vx_region.specs.Regions.{region_at};

use std::marker::Model;
use vx_region::{Region, RegionNo, RegionSet};

/// The regions that are looked at: all of a set, or those of some numbers, in order.
#[derive(Drop)]
pub struct Candidates<'a> {
    regions: &'a RegionSet,
    // None for all.
    numbers: Option<&'a [u32]>,
}

impl<'a> Model for Candidates<'a> {
    ghost use Rattle.std.specs.Prelude.{List, option_map, IfSome};
    ghost use Rattle.vx_region.specs.Regions.{Entry};
    ghost use Rattle.vx_decide.specs.Candidates.{AreNumbers, candidates_of};

    ghost Value = { List Entry };

    ghost view = { λ a. candidates_of a.regions.now (option_map (λ s. s.now) a.numbers) };

    ghost invariant = { λ a. IfSome a.numbers (λ s. AreNumbers a.regions.now s.now) };
}

impl<'a> Candidates<'a> {
    /// All of these regions.
    pub fn all(regions: &'a RegionSet) -> Candidates<'a>
        ensures { result ≡ regions.now.entries }
    {
        Candidates {
            regions,
            numbers: None,
        }
    }

    /// Those of these numbers.
    pub fn at(regions: &'a RegionSet, numbers: &'a [u32]) -> Candidates<'a>
        requires { AreNumbers regions.now numbers.now }
        ensures { result ≡ regions_at regions.now numbers.now }
    {
        Candidates {
            regions,
            numbers: Some(numbers),
        }
    }

    /// How many there are.
    #[tactic(auto, using(crate::proofs::ByNumber::regions_length))]
    pub fn count(&self) -> usize
        ensures { result ≡ length self.now }
    {
        match self.numbers {
            Some(numbers) => numbers.len(),
            None => self.regions.count() as usize,
        }
    }

    /// The one of that index, counted from 0, with its number.
    #[tactic(auto, using(crate::proofs::ByNumber::regions_length, crate::proofs::ByNumber::regions_read, crate::proofs::ByNumber::number_named))]
    pub fn nth(&self, index: usize) -> (RegionNo, &Region)
        requires { index < length self.now }
        ensures { slice_get self.now index ≡ Some (result.0.0, result.1.now) }
    {
        match self.numbers {
            Some(numbers) => {
                let number = number_at(numbers, index);
                (RegionNo(number), region_of(self.regions, number))
            }
            None => {
                prove!(index < self.regions.count() as usize);
                self.regions.nth(index as u32)
            }
        }
    }
}

fn number_at(numbers: &[u32], index: usize) -> u32
    requires { index < length numbers.now }
    ensures { result ≡ slice_index_or numbers.now index 0 }
{
    numbers[index]
}

// The region of a number that has one.
#[tactic(auto, using(crate::proofs::ByNumber::some_read))]
fn region_of(regions: &RegionSet, number: u32) -> &Region
    requires { IsSome (region_at regions.now number) }
    ensures { region_at regions.now number ≡ Some result.now }
{
    regions.get(RegionNo(number)).unwrap()
}
