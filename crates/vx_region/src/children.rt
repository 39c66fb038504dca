ghost use Rattle.std.specs.Prelude.{◌≡◌, [], OnOk, OnErr};
ghost use Rattle.vx_region.specs.ChildCounts.{counted, HasOneMore, HasOneLess};

use std::alloc::{AllocError, Global};
use std::marker::Model;
use vx_name::{Id, IdNumbers};

/// How many children the region of each id has: as many as have it as their parent. A copy shares
/// all counts, and a change copies a part of them.
pub(crate) struct Children {
    // An id whose region has no children has no count here. No clause says so: only memory rests on
    // it.
    counts: IdNumbers,
}

impl Model for Children {
    ghost use Rattle.vx_name.specs.IdParts.{IdList};

    ghost Value = { IdList };

    ghost view = { λ a. a.counts };
}

// Written out, so that what replaces it need not prove how its parts are let go.
impl Drop for Children {
    fn drop(self) {
        let Children { counts: _counts } = self;
    }
}

impl Children {
    /// No region has children.
    pub(crate) fn new() -> Children
        ensures { result ≡ [] }
    {
        Children {
            counts: IdNumbers::new(),
        }
    }

    /// How many children the region of that id has.
    pub(crate) fn count(&self, id: &Id) -> u32
        ensures { result ≡ counted self.now id.now }
    {
        self.counts.get(id).unwrap_or(0)
    }

    /// Counts one more child of the region of that id.
    pub(crate) fn add(&mut self, alloc: Global, id: &Id) -> Result<(), AllocError>
        ensures ok { OnOk result (HasOneMore id.now self.old self.new) }
        ensures err { OnErr result (self.new ≡ self.old) }
    {
        // There is no memory for more regions than a `u32` can count.
        let count = self.count(id).checked_add(1).ok_or(AllocError)?;
        self.counts.add(alloc, *id, count)
    }

    /// Counts one child less of the region of that id.
    pub(crate) fn take(&mut self, alloc: Global, id: &Id) -> Result<(), AllocError>
        ensures ok { OnOk result (HasOneLess id.now self.old self.new) }
        ensures err { OnErr result (self.new ≡ self.old) }
    {
        let count = self.count(id).saturating_sub(1);
        if count == 0 {
            return self.counts.remove(id);
        }
        self.counts.add(alloc, *id, count)
    }
}

impl Clone for Children {
    ghost is_clone = { λ children copy. copy ≡ children };

    fn clone(&self) -> Result<Children, AllocError> {
        Ok(Children {
            counts: self.counts.clone()?,
        })
    }
}
