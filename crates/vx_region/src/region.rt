ghost use Rattle.std.specs.Prelude.{◌≡◌, true, false, option_map, Some, None, IfOk, OnOk, OnErr};
ghost use Rattle.std.specs.Bool.{Decides};
ghost use Rattle.vx_flag.specs.Settings.{setting_of, with_setting};
ghost use Rattle.vx_geom.specs.Outline.{is_in};
ghost use Rattle.vx_name.specs.Names.{names};
ghost use Rattle.vx_region.specs.Regions.{names_of, gaining, losing, fresh_region};
ghost use Rattle.vx_region.specs.SameRegions.{same_number, same_place, same_rosters, same_region};
ghost use Rattle.vx_name.specs.Texts.{texts};

use crate::region_no::RegionNo;
use crate::roster::Roster;
use std::alloc::{AllocError, Global};
use std::marker::Model;
use vx_flag::{Flag, Setting, Settings};
use vx_geom::{Pos, Shape};
use vx_name::{Id, Name, NameSet};

/// A region: where it lies, its priority and its parent, who its owners and its members are, the
/// domains of its machines, and what it sets for each flag.
#[derive(Drop)]
pub struct Region {
    id: Id,
    shape: Shape,
    priority: i32,
    parent: Option<RegionNo>,
    owners: NameSet,
    members: NameSet,
    domains: NameSet,
    settings: Settings,
}

impl Model for Region {
    ghost use Rattle.std.specs.Prelude.{option_map};
    ghost use Rattle.vx_region.specs.Regions.{RegionData};

    ghost Value = { RegionData };

    ghost view = { λ a. record {
      id = a.id.text.bytes;
      shape = a.shape;
      priority = a.priority;
      parent = option_map (λ n. n.0) a.parent;
      owners = a.owners;
      members = a.members;
      domains = a.domains;
      settings = a.settings;
    } };
}

impl Region {
    /// A region that nobody owns.
    pub(crate) fn new(alloc: Global, id: Id, shape: Shape) -> Region
        ensures { result ≡ fresh_region id.text.bytes shape }
    {
        Region {
            id,
            shape,
            priority: 0,
            parent: None,
            owners: NameSet::new(alloc),
            members: NameSet::new(alloc),
            domains: NameSet::new(alloc),
            settings: Settings::new(),
        }
    }

    /// The id that it was defined with.
    pub fn id(&self) -> &Id
        ensures { result.now.text.bytes ≡ self.now.id }
    {
        &self.id
    }

    /// Where the region lies.
    pub fn shape(&self) -> &Shape
        ensures { result.now ≡ self.now.shape }
    {
        &self.shape
    }

    /// Whether the position is in the region.
    pub fn contains(&self, p: Pos) -> bool
        ensures { result ≡ is_in self.now.shape p }
    {
        self.shape.contains(p)
    }

    /// The priority, 0 at first. Of the regions at a place those of highest priority decide.
    pub fn priority(&self) -> i32
        ensures { result ≡ self.now.priority }
    {
        self.priority
    }

    /// The region that it inherits from.
    pub fn parent(&self) -> Option<RegionNo>
        ensures { option_map (λ n. n.0) result ≡ self.now.parent }
    {
        self.parent
    }

    /// What it sets for the flag itself.
    pub fn setting(&self, flag: Flag) -> Option<Setting>
        ensures { result ≡ setting_of self.now.settings flag }
    {
        self.settings.get(flag)
    }

    /// Whether the name is on that roster.
    pub fn has_name(&self, roster: Roster, name: &Name) -> bool
        ensures { result ≡ names (names_of roster self.now) name.now.text.bytes }
    {
        match roster {
            Roster::Owners => self.owners.has(name),
            Roster::Members => self.members.has(name),
            Roster::Domains => self.domains.has(name),
        }
    }

    /// The domains that it lists itself, in the order in which they were added.
    pub(crate) fn domains(&self) -> &[Name]
        ensures { texts result.now ≡ self.now.domains }
    {
        self.domains.as_slice()
    }

    /// Gives it another parent, or none.
    pub(crate) fn set_parent(&mut self, parent: Option<RegionNo>)
        ensures { self.new ≡ record self.old { parent = option_map (λ n. n.0) parent } }
    {
        self.parent = parent;
    }

    /// Adds a name to that roster. One that is there already stays there once.
    pub(crate) fn add_name(&mut self, roster: Roster, name: Name) -> Result<(), AllocError>
        ensures ok { OnOk result (self.new ≡ gaining roster name.text.bytes self.old) }
        ensures err { OnErr result (self.new ≡ self.old) }
        // A name that is there needs no room.
        ensures absent { OnErr result (names (names_of roster self.old) name.text.bytes ≡ false) }
        ensures parent { self.new.parent ≡ self.old.parent }
        ensures id { self.new.id ≡ self.old.id }
    {
        match roster {
            Roster::Owners => self.owners.add(name),
            Roster::Members => self.members.add(name),
            Roster::Domains => self.domains.add(name),
        }
    }

    /// Drops a name from that roster. Nothing changes where it is not there.
    pub(crate) fn drop_name(&mut self, roster: Roster, name: &Name) -> Result<(), AllocError>
        ensures ok { OnOk result (self.new ≡ losing roster name.now.text.bytes self.old) }
        ensures err { OnErr result (self.new ≡ self.old) }
        // A name that is not there needs no room to be dropped.
        ensures there { OnErr result (names (names_of roster self.old) name.now.text.bytes ≡ true) }
        ensures parent { self.new.parent ≡ self.old.parent }
        ensures id { self.new.id ≡ self.old.id }
    {
        match roster {
            Roster::Owners => self.owners.remove(name),
            Roster::Members => self.members.remove(name),
            Roster::Domains => self.domains.remove(name),
        }
    }

    /// Gives it another shape.
    pub(crate) fn set_shape(&mut self, shape: Shape)
        ensures value { self.new ≡ record self.old { shape = shape } }
        ensures parent { self.new.parent ≡ self.old.parent }
    {
        self.shape = shape;
    }

    /// Gives it another priority.
    pub(crate) fn set_priority(&mut self, priority: i32)
        ensures value { self.new ≡ record self.old { priority = priority } }
        ensures parent { self.new.parent ≡ self.old.parent }
    {
        self.priority = priority;
    }

    /// Sets the flag, in place of what was set for it before.
    pub(crate) fn set_flag(&mut self, flag: Flag, setting: Setting)
        ensures value { self.new ≡ record self.old {
          settings = with_setting self.old.settings flag (Some setting);
        } }
        ensures parent { self.new.parent ≡ self.old.parent }
    {
        self.settings.set(flag, setting);
    }

    /// Leaves the flag unset.
    pub(crate) fn clear_flag(&mut self, flag: Flag)
        ensures value { self.new ≡ record self.old {
          settings = with_setting self.old.settings flag None;
        } }
        ensures parent { self.new.parent ≡ self.old.parent }
    {
        self.settings.clear(flag);
    }
}

impl Region {
    #[tactic(auto, unfolding(crate::specs::SameRegions::same_region))]
    fn same_parts(&self, other: &Region) -> bool
        ensures { result ≡ same_region self.now other.now }
    {
        self.same_place(other) && self.same_rosters(other) && self.settings == other.settings
    }

    #[tactic(auto, unfolding(crate::specs::SameRegions::same_place))]
    fn same_place(&self, other: &Region) -> bool
        ensures { result ≡ same_place self.now other.now }
    {
        if self.id != other.id {
            return false;
        }
        if self.shape != other.shape {
            return false;
        }
        if self.priority() != other.priority() {
            return false;
        }
        same_number(self.parent, other.parent)
    }

    #[tactic(auto, unfolding(crate::specs::SameRegions::same_rosters))]
    fn same_rosters(&self, other: &Region) -> bool
        ensures { result ≡ same_rosters self.now other.now }
    {
        self.owners.is_same(&other.owners)
            && self.members.is_same(&other.members)
            && self.domains.is_same(&other.domains)
    }
}

impl PartialEq for Region {
    ghost use Rattle.std.specs.Cmp.{partial_equiv_from_equiv};
    ghost use Rattle.vx_region.specs.RegionsLaws.{region_equiv};

    ghost eq = { same_region };

    ghost laws = { partial_equiv_from_equiv region_equiv };

    /// Whether both are the same in every part: id, shape, priority and parent, the owners, the
    /// members and the domains in their order, and what is set for each flag.
    fn eq(&self, other: &Region) -> bool
        ensures value { result ≡ same_region self.now other.now }
        ensures decides { Decides result (self.now ≡ other.now) }
    {
        self.same_parts(other)
    }
}

impl Eq for Region {
    ghost use Rattle.vx_region.specs.RegionsLaws.{region_equiv};

    ghost laws = { region_equiv };
}

impl Clone for Region {
    ghost is_clone = { λ region copy. copy ≡ region };

    fn clone(&self) -> Result<Region, AllocError> {
        Ok(Region {
            id: self.id,
            shape: self.shape.clone()?,
            priority: self.priority(),
            parent: self.parent,
            owners: self.owners.clone()?,
            members: self.members.clone()?,
            domains: self.domains.clone()?,
            settings: self.settings,
        })
    }
}

#[tactic(auto, unfolding(crate::specs::SameRegions::same_number))]
fn same_number(a: Option<RegionNo>, b: Option<RegionNo>) -> bool
    ensures { result ≡ same_number (option_map (λ n. n.0) a) (option_map (λ n. n.0) b) }
{
    a == b
}
