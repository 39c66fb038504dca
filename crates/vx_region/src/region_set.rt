ghost use Rattle.std.specs.Prelude.{◌≡◌, ◌+◌, ◌-◌, ◌^◌, ◌<◌, false, length, slice_get, option_map, option_copied, None, Some, IsSome, IfOk, OnOk, OnErr};
ghost use Rattle.vx_region.specs.Ancestry.{is_under, is_above};
ghost use Rattle.vx_region.specs.Association.{has_name, has_name_along, player_association, machine_association, holds_place, association};
ghost use Rattle.vx_region.specs.Forest.{IsForest};
ghost use Rattle.vx_region.specs.IdIndex.{HaveOwnIds, NoneIsGlobal};
ghost use Rattle.vx_region.specs.Regions.{no_regions, region_at, number_of, parent_of, setting_at, is_global_id, with_region, with_name};
ghost use Rattle.vx_region.specs.Subjects.{actor_of};

mod copies;
mod domains;
mod edits;
mod equality;
mod family;

use crate::children::Children;
use crate::region::Region;
use crate::region_list::RegionList;
use crate::region_no::RegionNo;
use crate::roster::Roster;
use crate::shared_region::SharedRegion;
use crate::subject::Subject;
use std::alloc::{AllocError, Global};
use std::marker::Model;
use vx_flag::{Association, Flag, Setting, Settings};
use vx_geom::{Pos, Shape};
use vx_name::{Id, IdNumbers, Name};

/// The regions of a world, in order of their numbers, and the flags of the world at large, which is
/// `__global__` and has number 0. A number is never given twice. Copies share regions in blocks,
/// and ids and counts of children in parts: a change copies the region, its block, one part of the
/// ids and two parts of the counts at most.
pub struct RegionSet {
    last: u32,
    regions: RegionList,
    numbers: IdNumbers,
    children: Children,
    global: Settings,
}

impl Model for RegionSet {
    ghost use Rattle.vx_region.specs.Regions.{Regions, regions_of};
    ghost use Rattle.vx_region.specs.Soundness.{IsSound};

    ghost Value = { Regions };

    ghost view = { λ a. regions_of a.last a.regions a.global };

    ghost invariant = { λ a.
        IsSound (regions_of a.last a.regions a.global) a.numbers a.children };
}

// Written out, so that what is above this crate need not prove how its parts are let go.
impl Drop for RegionSet {
    fn drop(self) {
        let RegionSet {
            last: _,
            regions: _regions,
            numbers: _numbers,
            children: _children,
            global: _,
        } = self;
    }
}

impl RegionSet {
    /// No regions yet.
    pub fn new(alloc: Global) -> RegionSet
        ensures { result ≡ no_regions }
    {
        RegionSet {
            last: 0,
            regions: RegionList::new(alloc),
            numbers: IdNumbers::new(),
            children: Children::new(),
            global: Settings::new(),
        }
    }

    /// What holds of every set of regions: numbers ascend from 1 to the last one given, each parent
    /// is there and each chain of parents ends, no two regions have the same id, and none has that
    /// of the world at large.
    pub fn soundness(&self)
        ensures forest { IsForest self.now }
        ensures ids { HaveOwnIds self.now.entries }
        ensures global { NoneIsGlobal self.now.entries }
    {
        let _last = &self.last;
    }

    /// How many regions there are, `__global__` not counted.
    pub fn count(&self) -> u32
        ensures { result ≡ length self.now.entries }
    {
        let count = self.regions.len();
        prove!(count <= self.last as usize);
        count as u32
    }

    /// The last number that was given, 0 at first.
    pub fn last(&self) -> u32
        ensures { result ≡ self.now.last }
    {
        self.last
    }

    /// The region of that number.
    pub fn get(&self, number: RegionNo) -> Option<&Region>
        ensures { option_copied result ≡ region_at self.now number.0 }
    {
        self.regions.get(number.0)
    }

    /// The region at that place in order of number, counted from 0, with its number.
    pub fn nth(&self, index: u32) -> (RegionNo, &Region)
        requires { index < length self.now.entries }
        ensures { slice_get self.now.entries index ≡ Some (result.0.0, result.1.now) }
    {
        let (number, region) = self.regions.nth(index as usize).unwrap();
        (RegionNo(number), region)
    }

    /// The number of the region with that id, 0 for `__global__`.
    pub fn find(&self, id: &Id) -> Option<RegionNo>
        ensures { option_map (λ n. n.0) result ≡ number_of self.now id.now.text.bytes }
    {
        if is_global_id(id) {
            return Some(RegionNo(0));
        }
        self.numbers.get(id).map(|number| RegionNo(number))
    }

    /// The parent of the region of that number.
    #[tactic(auto, unfolding(crate::specs::Regions::parent_of))]
    pub fn parent(&self, number: RegionNo) -> Option<RegionNo>
        ensures { option_map (λ n. n.0) result ≡ parent_of self.now number.0 }
    {
        self.get(number)?.parent()
    }

    /// What the region of that number sets for the flag itself, or the world at large for number 0.
    #[tactic(auto, unfolding(crate::specs::Regions::setting_at))]
    pub fn setting(&self, number: RegionNo, flag: Flag) -> Option<Setting>
        ensures { result ≡ setting_at self.now number.0 flag }
    {
        if number.0 == 0 {
            return self.global.get(flag);
        }
        self.get(number)?.setting(flag)
    }

    /// Whether `ancestor` is the region itself, its parent, its parent's parent, and so on.
    #[tactic(auto, unfolding(crate::specs::Ancestry::is_under))]
    pub fn under(&self, number: RegionNo, ancestor: RegionNo) -> bool
        ensures { result ≡ is_under self.now number.0 ancestor.0 }
    {
        let mut at = number;
        for _ in 0..u64::from(self.last()) + 1 {
            if ancestor == at {
                return true;
            }
            match self.parent(at) {
                Some(parent) => at = parent,
                None => return false,
            }
        }
        // No walk comes here: no chain of parents is longer than the numbers that were given.
        false
    }

    /// Whether `upper` is the region's parent, its parent's parent, and so on.
    #[tactic(auto, unfolding(crate::specs::Ancestry::is_above, crate::specs::Ancestry::is_under))]
    pub fn is_above(&self, upper: RegionNo, region: &Region) -> bool
        ensures { result ≡ is_above self.now upper.0 region.now }
    {
        match region.parent() {
            Some(parent) => self.under(parent, upper),
            None => false,
        }
    }

    /// What the subject is to the region of that number: for a player by the names of the whole
    /// ancestry, for a machine by where it stands and the domains of that land. Everyone is a stranger
    /// to `__global__`. It takes no memory.
    #[tactic(auto, unfolding(crate::specs::Association::association))]
    pub fn association(&self, subject: &Subject, number: RegionNo) -> Association
        ensures { result ≡ association self.now (actor_of subject.now) number.0 }
    {
        match subject {
            Subject::Player(name) => self.player_association(name, number),
            Subject::Machine(place) => self.machine_association(place, number),
        }
    }

    #[tactic(auto, unfolding(crate::specs::Association::player_association))]
    fn player_association(&self, name: &Name, number: RegionNo) -> Association
        ensures { result ≡ player_association self.now name.now.text.bytes number.0 }
    {
        if self.has_name_along(Roster::Owners, name, number) {
            return Association::Owner;
        }
        if self.has_name_along(Roster::Members, name, number) {
            return Association::Member;
        }
        Association::Stranger
    }

    // Whether some region of the ancestry has the name on that roster.
    #[tactic(auto, unfolding(crate::specs::Association::has_name_along))]
    fn has_name_along(&self, roster: Roster, name: &Name, number: RegionNo) -> bool
        ensures { result ≡ has_name_along self.now roster name.now.text.bytes number.0 }
    {
        let mut at = number;
        for _ in 0..u64::from(self.last()) + 1 {
            let (is_named, parent) = self.naming_at(roster, name, at);
            if is_named {
                return true;
            }
            match parent {
                Some(parent) => at = parent,
                None => return false,
            }
        }
        // No walk comes here: no chain of parents is longer than the numbers that were given.
        false
    }

    #[tactic(auto, unfolding(crate::specs::Association::has_name))]
    fn has_name(&self, roster: Roster, name: &Name, number: RegionNo) -> bool
        ensures { result ≡ has_name self.now roster name.now.text.bytes number.0 }
    {
        match self.get(number) {
            Some(region) => region.has_name(roster, name),
            None => false,
        }
    }

    // Whether the region of that number has the name on that roster, and its parent.
    #[tactic(auto, unfolding(crate::specs::Association::has_name, crate::specs::Regions::parent_of))]
    fn naming_at(&self, roster: Roster, name: &Name, number: RegionNo) -> (bool, Option<RegionNo>)
        ensures named { result.0 ≡ has_name self.now roster name.now.text.bytes number.0 }
        ensures parent { option_map (λ n. n.0) result.1 ≡ parent_of self.now number.0 }
    {
        match self.get(number) {
            Some(region) => (region.has_name(roster, name), region.parent()),
            None => (false, None),
        }
    }

    #[tactic(auto, unfolding(crate::specs::Association::machine_association))]
    fn machine_association(&self, place: &Pos, number: RegionNo) -> Association
        ensures { result ≡ machine_association self.now place.now number.0 }
    {
        if self.holds_place(place, number) {
            return Association::Owner;
        }
        if self.stands_in_domain(place, number) {
            return Association::Owner;
        }
        Association::Stranger
    }

    /// Whether the region of that number itself contains the place.
    #[tactic(auto, unfolding(crate::specs::Association::holds_place))]
    pub fn holds_place(&self, place: &Pos, number: RegionNo) -> bool
        ensures { result ≡ holds_place self.now place.now number.0 }
    {
        match self.get(number) {
            Some(region) => region.contains(*place),
            None => false,
        }
    }

    /// Defines a region that nobody owns yet and answers its number. The id has to be free, and a
    /// number left.
    pub fn define(&mut self, alloc: Global, id: Id, shape: Shape) -> Result<RegionNo, AllocError>
        requires free { number_of self.old id.text.bytes ≡ None }
        requires room { self.old.last < 2 ^ 32 - 1 }
        ensures ok { IfOk result (λ n. (n.0 ≡ self.old.last + 1)
            × (self.new ≡ with_region self.old id.text.bytes shape)) }
        ensures err { OnErr result (self.new ≡ self.old) }
    {
        let number = self.last + 1;
        let key = id;
        let region = SharedRegion::new(alloc, Region::new(alloc, id, shape))?;
        // The index is changed last, and in a copy: once the region stands behind the others,
        // nothing can fail.
        let mut numbers = self.numbers.clone()?;
        numbers.add(alloc, key, number)?;
        self.regions.push(alloc, number, region)?;
        self.numbers = numbers;
        self.last = number;
        Ok(RegionNo(number))
    }

    /// Adds a name to that roster of a region that is there. One that it has already stays there
    /// once.
    pub fn add_name(
        &mut self,
        number: RegionNo,
        roster: Roster,
        name: Name,
    ) -> Result<(), AllocError>
        requires { IsSome (region_at self.old number.0) }
        ensures ok { OnOk result (self.new ≡ with_name self.old number.0 roster name.text.bytes) }
        ensures err { OnErr result (self.new ≡ self.old) }
        // A name that is there needs no room.
        ensures absent { OnErr result (has_name self.old roster name.text.bytes number.0 ≡ false) }
    {
        // A region that has it is not copied.
        if self.has_name(roster, &name, number) {
            return Ok(());
        }
        self.regions.own(number.0)?.add_name(roster, name)
    }
}

// Whether the id is that of the world at large.
#[tactic(auto, unfolding(crate::specs::Regions::is_global_id))]
fn is_global_id(id: &Id) -> bool
    ensures { result ≡ is_global_id id.now.text.bytes }
{
    id.as_str() == "__global__"
}
