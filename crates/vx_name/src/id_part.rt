ghost use Rattle.std.specs.Prelude.{◌≡◌, IfOk};
ghost use Rattle.std.specs.List.{filter};
ghost use Rattle.std.specs.Map.{lookup};
ghost use Rattle.vx_name.specs.Ids.{same_id};
ghost use Rattle.vx_name.specs.IdUpdates.{is_other};

use crate::has_ids::HasIds;
use crate::id::Id;
use std::alloc::{AllocError, Global};
use std::marker::Model;
use std::sync::Arc;

/// The numbers of a few ids, in a list that copies share. A change makes another list.
#[derive(Drop)]
pub(crate) struct IdPart {
    // `None` until there is an id, since an `Arc` takes memory.
    numbers: Option<Arc<Vec<(Id, u32)>>>,
}

impl Model for IdPart {
    ghost use Rattle.std.specs.Prelude.{[], ℕ};
    ghost use Rattle.std.specs.Arc.{arc_value};
    ghost use Rattle.std.specs.Global.{Vec as Numbers};
    ghost use Rattle.std.specs.Option.{option_map_or};
    ghost use Rattle.vx_name.specs.IdParts.{IdList};
    ghost use Rattle.vx_name.specs.declared.id.Id.{Id as AnyId};

    ghost Value = { IdList };

    ghost view = { λ a. option_map_or
        (λ n. (arc_value {X = Numbers (AnyId × ℕ)} n).items) a.numbers [] };
}

impl HasIds for IdPart {
    ghost ids = { λ part. part };

    ghost copied = { λ part copy same. same };

    fn none() -> IdPart {
        IdPart { numbers: None }
    }

    fn get(&self, _hash: usize, id: &Id) -> Option<u32> {
        number_of(self.as_slice(), id)
    }

    fn add(&mut self, alloc: Global, _hash: usize, id: Id, number: u32) -> Result<(), AllocError> {
        let mut numbers = others(alloc, self.as_slice(), &id)?;
        numbers.push((id, number))?;
        self.numbers = Some(Arc::new(alloc, numbers)?);
        Ok(())
    }

    fn remove(&mut self, _hash: usize, id: &Id) -> Result<(), AllocError> {
        let Some(shared) = &self.numbers else {
            return Ok(());
        };
        let alloc = *shared.allocator();
        let numbers = others(alloc, self.as_slice(), id)?;
        self.numbers = Some(Arc::new(alloc, numbers)?);
        Ok(())
    }
}

impl IdPart {
    // The ids with their numbers.
    fn as_slice(&self) -> &[(Id, u32)]
        ensures { result.now ≡ self.now }
    {
        match &self.numbers {
            Some(numbers) => numbers.as_slice(),
            None => &[],
        }
    }
}

impl Clone for IdPart {
    ghost is_clone = { λ numbers copy. copy ≡ numbers };

    fn clone(&self) -> Result<IdPart, AllocError> {
        let Some(numbers) = &self.numbers else {
            return Ok(IdPart::none());
        };
        Ok(IdPart {
            numbers: Some(Arc::try_clone(numbers)?),
        })
    }
}

// The number of that id among these, which are looked at one by one.
fn number_of(numbers: &[(Id, u32)], id: &Id) -> Option<u32>
    ensures { result ≡ lookup (same_id id.now) numbers.now }
{
    for entry in numbers {
        if is_same(id, &entry.0) {
            return Some(entry.1);
        }
    }
    None
}

// These but for that id, and room for one more.
fn others(alloc: Global, numbers: &[(Id, u32)], id: &Id) -> Result<Vec<(Id, u32)>, AllocError>
    ensures { IfOk result (λ others. others.items ≡ filter (is_other id.now) numbers.now) }
{
    let mut others = Vec::with_capacity(alloc, numbers.len() + 1)?;
    for entry in numbers {
        if !is_same(id, &entry.0) {
            others.push(*entry)?;
        }
    }
    Ok(others)
}

// Whether both are one id. Their last letters are compared first, since these tell most ids of a
// part apart, for less than all letters cost.
fn is_same(id: &Id, other: &Id) -> bool
    ensures { result ≡ same_id id.now other.now }
{
    let these = id.as_str().as_bytes();
    let those = other.as_str().as_bytes();
    these.last() == those.last() && these == those
}
