ghost use Rattle.std.specs.Prelude.{◌≡◌, ◌<◌, ℕ, [], Some, None, IfOk, OnOk, OnErr};
ghost use Rattle.std.specs.Arc.{arc_value};
ghost use Rattle.vx_name.specs.IdParts.{hash_of_id, part_of, ids_of, AreParted};
ghost use Rattle.vx_name.specs.IdUpdates.{IsUpdated};
ghost use Rattle.vx_name.specs.declared.parted.TheConstants.{PARTS};

use crate::has_ids::HasIds;
use crate::id::Id;
use std::alloc::{AllocError, Global};
use std::marker::Model;
use std::sync::Arc;

/// How many parts ids stand in, at each level.
pub(crate) const PARTS: usize = 32;

/// The level of the parts of a group: an id stands in its part by the lower half of its hash.
pub(crate) const INNER: u8 = 0;

/// The level of the groups: an id stands in its group by the upper half of its hash.
pub(crate) const OUTER: u8 = 1;

/// The numbers of ids, in parts by their hashes. Copies share all parts. A change takes pointers of
/// its own to them, and changes one of them.
#[derive(Drop)]
pub(crate) struct Parted<P: HasIds, const LEVEL: u8> {
    // `None` until there is an id, since parts take memory.
    parts: Option<Arc<Vec<P>>>,
}

impl<P: HasIds, const LEVEL: u8> Model for Parted<P, LEVEL> {
    ghost use Rattle.std.specs.Prelude.{[]};
    ghost use Rattle.std.specs.Arc.{arc_value};
    ghost use Rattle.std.specs.Global.{Vec as Parts};
    ghost use Rattle.std.specs.Option.{IfSome, option_map_or};
    ghost use Rattle.vx_name.specs.IdParts.{IdList, ids_of, AreParted};

    ghost Value = { IdList };

    ghost view = { λ a. option_map_or
        (λ p. ids_of P.ids (arc_value {X = Parts P} p).items) a.parts [] };

    ghost invariant = { λ a. IfSome a.parts
        (λ p. AreParted P.ids LEVEL (arc_value {X = Parts P} p).items) };
}

impl<P: HasIds, const LEVEL: u8> HasIds for Parted<P, LEVEL> {
    ghost ids = { λ parted. parted };

    ghost copied = { λ parted copy same. same };

    fn none() -> Parted<P, LEVEL> {
        Parted { parts: None }
    }

    fn get(&self, hash: usize, id: &Id) -> Option<u32> {
        let Some(parts) = &self.parts else {
            return None;
        };
        parts[part_of(LEVEL, hash)].get(hash, id)
    }

    fn add(&mut self, alloc: Global, hash: usize, id: Id, number: u32) -> Result<(), AllocError> {
        match &mut self.parts {
            Some(shared) => put(LEVEL, shared, alloc, hash, id, number),
            None => {
                self.parts = Some(first(LEVEL, alloc, hash, id, number)?);
                Ok(())
            }
        }
    }

    fn remove(&mut self, hash: usize, id: &Id) -> Result<(), AllocError> {
        match &mut self.parts {
            Some(shared) => take_out(LEVEL, shared, hash, id),
            None => Ok(()),
        }
    }
}

impl<P: HasIds, const LEVEL: u8> Clone for Parted<P, LEVEL> {
    ghost is_clone = { λ parted copy. copy ≡ parted };

    fn clone(&self) -> Result<Parted<P, LEVEL>, AllocError> {
        let Some(parts) = &self.parts else {
            return Ok(Parted::none());
        };
        Ok(Parted {
            parts: Some(Arc::try_clone(parts)?),
        })
    }
}

// The number of the part in which an id of that hash stands.
#[tactic(auto, unfolding(crate::specs::IdParts::part_of))]
fn part_of(level: u8, hash: usize) -> usize
    ensures value { result ≡ part_of level hash }
    ensures within { result < PARTS }
{
    let half = if level == INNER { hash } else { hash / PARTS };
    half % PARTS
}

// Gives the id this number in its part. Where copies share the parts, that part is copied.
fn put<P: HasIds>(
    level: u8,
    shared: &mut Arc<Vec<P>>,
    alloc: Global,
    hash: usize,
    id: Id,
    number: u32,
) -> Result<(), AllocError>
    requires hash { hash ≡ hash_of_id id }
    requires parted { AreParted P.ids level (arc_value shared.old).items }
    ensures parted { AreParted P.ids level (arc_value shared.new).items }
    ensures ok { OnOk result (IsUpdated id (Some number)
        (ids_of P.ids (arc_value shared.old).items) (ids_of P.ids (arc_value shared.new).items)) }
    ensures err { OnErr result (ids_of P.ids (arc_value shared.new).items
        ≡ ids_of P.ids (arc_value shared.old).items) }
{
    let index = part_of(level, hash);
    let parts = Arc::make_mut(shared)?;
    parts[index].add(alloc, hash, id, number)
}

// Takes the number from the id in its part. Where copies share the parts, that part is copied.
fn take_out<P: HasIds>(
    level: u8,
    shared: &mut Arc<Vec<P>>,
    hash: usize,
    id: &Id,
) -> Result<(), AllocError>
    requires hash { hash ≡ hash_of_id id.now }
    requires parted { AreParted P.ids level (arc_value shared.old).items }
    ensures parted { AreParted P.ids level (arc_value shared.new).items }
    ensures ok { OnOk result (IsUpdated id.now None
        (ids_of P.ids (arc_value shared.old).items) (ids_of P.ids (arc_value shared.new).items)) }
    ensures err { OnErr result (ids_of P.ids (arc_value shared.new).items
        ≡ ids_of P.ids (arc_value shared.old).items) }
{
    let index = part_of(level, hash);
    let parts = Arc::make_mut(shared)?;
    parts[index].remove(hash, id)
}

// The parts of the first id.
fn first<P: HasIds>(
    level: u8,
    alloc: Global,
    hash: usize,
    id: Id,
    number: u32,
) -> Result<Arc<Vec<P>>, AllocError>
    requires { hash ≡ hash_of_id id }
    ensures parted { IfOk result (λ shared. AreParted P.ids level (arc_value shared).items) }
    ensures updated { IfOk result (λ shared. IsUpdated id (Some number)
        [] (ids_of P.ids (arc_value shared).items)) }
{
    let mut shared = Arc::new(alloc, no_ids(alloc)?)?;
    put(level, &mut shared, alloc, hash, id, number)?;
    Ok(shared)
}

// Parts without an id.
fn no_ids<P: HasIds>(alloc: Global) -> Result<Vec<P>, AllocError>
    ensures parted { IfOk result (λ parts. (level : ℕ) → AreParted P.ids level parts.items) }
    ensures none { IfOk result (λ parts. ids_of P.ids parts.items ≡ []) }
{
    let mut parts = Vec::with_capacity(alloc, PARTS)?;
    for _ in 0..PARTS {
        parts.push(P::none())?;
    }
    Ok(parts)
}
