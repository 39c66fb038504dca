ghost use Rattle.std.specs.Prelude.{◌≡◌, [], Some, None, OnOk, OnErr};
ghost use Rattle.std.specs.Map.{lookup};
ghost use Rattle.vx_name.specs.Ids.{same_id};
ghost use Rattle.vx_name.specs.IdParts.{hash_of_id};
ghost use Rattle.vx_name.specs.IdUpdates.{IsUpdated};

use crate::has_ids::HasIds;
use crate::id::Id;
use crate::id_part::IdPart;
use crate::parted::{INNER, OUTER, PARTS, Parted};
use std::alloc::{AllocError, Global};
use std::marker::Model;

// A hash names a group and a part of it.
const HASHES: usize = PARTS * PARTS;

// The ids of one group, in parts.
type IdGroup = Parted<IdPart, INNER>;

/// The number of each region by its id, in 32 groups of 32 parts, by a hash of the id. A copy
/// shares all groups. However many ids there are, a change copies one part and 64 pointers: to the
/// parts of its group and to the groups. A group takes no memory until it has an id.
pub struct IdNumbers {
    groups: Parted<IdGroup, OUTER>,
}

impl Model for IdNumbers {
    ghost use Rattle.vx_name.specs.IdParts.{IdList};

    ghost Value = { IdList };

    ghost view = { λ a. a.groups };
}

// Written out, so that what replaces it need not prove how its parts are let go.
impl Drop for IdNumbers {
    fn drop(self) {
        let IdNumbers { groups: _groups } = self;
    }
}

impl IdNumbers {
    /// No id has a number.
    pub fn new() -> IdNumbers
        ensures { result ≡ [] }
    {
        IdNumbers {
            groups: Parted::none(),
        }
    }

    /// The number of that id.
    pub fn get(&self, id: &Id) -> Option<u32>
        ensures { result ≡ lookup (same_id id.now) self.now }
    {
        self.groups.get(hash_of(id), id)
    }

    /// Gives the id this number.
    pub fn add(&mut self, alloc: Global, id: Id, number: u32) -> Result<(), AllocError>
        ensures ok { OnOk result (IsUpdated id (Some number) self.old self.new) }
        ensures err { OnErr result (self.new ≡ self.old) }
    {
        self.groups.add(alloc, hash_of(&id), id, number)
    }

    /// Takes the number from the id.
    pub fn remove(&mut self, id: &Id) -> Result<(), AllocError>
        ensures ok { OnOk result (IsUpdated id.now None self.old self.new) }
        ensures err { OnErr result (self.new ≡ self.old) }
    {
        self.groups.remove(hash_of(id), id)
    }
}

impl Clone for IdNumbers {
    ghost is_clone = { λ numbers copy. copy ≡ numbers };

    fn clone(&self) -> Result<IdNumbers, AllocError> {
        Ok(IdNumbers {
            groups: self.groups.clone()?,
        })
    }
}

// The hash of an id.
#[tactic(auto, unfolding(crate::specs::IdParts::hash_of))]
fn hash_of(id: &Id) -> usize
    ensures { result ≡ hash_of_id id.now }
{
    let mut hash = 0;
    for byte in id.as_str().as_bytes() {
        hash = (hash * 13 + *byte as usize) % HASHES;
    }
    hash
}
