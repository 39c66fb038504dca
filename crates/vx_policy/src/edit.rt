ghost use Rattle.std.specs.Prelude.{◌≡◌, IfOk, string_bytes};
ghost use Rattle.vx_policy.specs.Asked.{Listed, asked, target};

use crate::listing::Listing;
use std::alloc::{AllocError, Global};
use vx_flag::{Flag, Setting};
use vx_geom::ShapeSpec;
use vx_region::Roster;

/// A change of the written policy, as it is asked for. Ids and names are texts, and shapes as they
/// are written: what is wrong with them is told where the edit is applied. docs/RULES.md says what
/// each edit does, and why it may be refused.
#[derive(Drop)]
pub enum Edit {
    /// A new region, of this id.
    Define(String, ShapeSpec),
    /// Another shape for a region.
    Reshape(String, ShapeSpec),
    /// The region is taken away.
    Remove(String),
    /// Another priority.
    Priority(String, i32),
    /// Another parent, or none.
    Parent(String, Option<String>),
    /// What the region sets for a flag.
    SetFlag(String, Flag, Setting),
    /// The region sets nothing for the flag.
    ClearFlag(String, Flag),
    /// A name is added to the owners, or dropped from them.
    Owner(String, Listing, String),
    /// A name is added to the members, or dropped from them.
    Member(String, Listing, String),
    /// A name is added to the domains of machines, or dropped from them.
    Domain(String, Listing, String),
}

impl Edit {
    /// The edit that adds a name to that roster, or drops it.
    pub fn listed(roster: Roster, id: String, listing: Listing, name: String) -> Edit
        ensures { asked result ≡ Listed roster (string_bytes id) listing (string_bytes name) }
    {
        match roster {
            Roster::Owners => Edit::Owner(id, listing, name),
            Roster::Members => Edit::Member(id, listing, name),
            Roster::Domains => Edit::Domain(id, listing, name),
        }
    }

    /// A copy of the edit.
    pub fn try_clone(&self, alloc: Global) -> Result<Edit, AllocError>
        ensures { IfOk result (λ copy. asked copy ≡ asked self.now) }
    {
        let id = String::from_str(alloc, self.target())?;
        match self {
            Edit::Define(_, shape) => Ok(Edit::Define(id, shape.try_clone(alloc)?)),
            Edit::Reshape(_, shape) => Ok(Edit::Reshape(id, shape.try_clone(alloc)?)),
            Edit::Remove(_) => Ok(Edit::Remove(id)),
            Edit::Priority(_, priority) => Ok(Edit::Priority(id, *priority)),
            Edit::Parent(_, Some(parent)) => {
                Ok(Edit::Parent(id, Some(String::from_str(alloc, parent)?)))
            }
            Edit::Parent(_, None) => Ok(Edit::Parent(id, None)),
            Edit::SetFlag(_, flag, setting) => Ok(Edit::SetFlag(id, *flag, *setting)),
            Edit::ClearFlag(_, flag) => Ok(Edit::ClearFlag(id, *flag)),
            Edit::Owner(_, listing, name) => {
                Ok(Edit::Owner(id, *listing, String::from_str(alloc, name)?))
            }
            Edit::Member(_, listing, name) => {
                Ok(Edit::Member(id, *listing, String::from_str(alloc, name)?))
            }
            Edit::Domain(_, listing, name) => {
                Ok(Edit::Domain(id, *listing, String::from_str(alloc, name)?))
            }
        }
    }

    /// The id that it names.
    pub(crate) fn target(&self) -> &str
        ensures { result.now ≡ target (asked self.now) }
    {
        match self {
            Edit::Define(id, _) => id,
            Edit::Reshape(id, _) => id,
            Edit::Remove(id) => id,
            Edit::Priority(id, _) => id,
            Edit::Parent(id, _) => id,
            Edit::SetFlag(id, _, _) => id,
            Edit::ClearFlag(id, _) => id,
            Edit::Owner(id, _, _) => id,
            Edit::Member(id, _, _) => id,
            Edit::Domain(id, _, _) => id,
        }
    }
}
