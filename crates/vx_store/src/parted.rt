ghost use Rattle.std.specs.Prelude.{◌≡◌, ◌<◌, ◌↔◌, ℕ, IsTrue, [], IsSome, slice_set, IfOk, OnOk, OnErr};
ghost use Rattle.std.specs.Arc.{arc_value};
ghost use Rattle.vx_store.specs.ChestParts.{chests_of, part_of, AreParted};
ghost use Rattle.vx_store.specs.Chests.{slots_of_chest, Changes, SameSlots, begun, refilled};
ghost use Rattle.vx_store.specs.Codes.{cell_of, is_chest};
ghost use Rattle.vx_store.specs.Placing.{CanPut};
ghost use Rattle.vx_store.specs.declared.parted.TheConstants.{PARTS};
ghost use Rattle.vx_store.specs.declared.stack.TheConstants.{SLOTS};

use crate::has_chests::HasChests;
use crate::stack::{SLOTS, Slot};
use std::alloc::{AllocError, Global};
use std::marker::Model;
use std::sync::Arc;
use vx_section::Sections;

/// How many parts chests stand in: a prime, so that rows, walls and columns spread over all.
pub const PARTS: u32 = 17;

/// Chests of a sector in 17 parts. As many indices in a row as the stride is are of one part, as
/// many behind them of the next, and behind the last part of the first again. Copies share all
/// parts. A change takes pointers of its own to them, and changes one of them.
#[derive(Drop)]
pub struct Parted<P: HasChests, const STRIDE: u32> {
    parts: Arc<Vec<P>>,
}

impl<P: HasChests, const STRIDE: u32> Model for Parted<P, STRIDE> {
    ghost use Rattle.std.specs.Arc.{arc_value};
    ghost use Rattle.std.specs.Global.{Vec as Parts};
    ghost use Rattle.vx_store.specs.ChestParts.{chests_of, AreParted};
    ghost use Rattle.vx_store.specs.Chests.{ChestData};

    ghost Value = { ChestData };

    ghost view = { λ a. chests_of P.chests (arc_value {X = Parts P} a.parts).items };

    ghost invariant = { λ a. AreParted P.chests STRIDE (arc_value {X = Parts P} a.parts).items };
}

impl<P: HasChests, const STRIDE: u32> Parted<P, STRIDE> {
    /// No chests, from a part without any.
    pub fn new(alloc: Global, none: &P) -> Result<Parted<P, STRIDE>, AllocError>
        requires stride { 0 < STRIDE }
        requires none { P.chests none.now ≡ [] }
        ensures { IfOk result (λ chests. chests ≡ []) }
    {
        Ok(Parted {
            parts: Arc::new(alloc, copies(alloc, none)?)?,
        })
    }
}

impl<P: HasChests, const STRIDE: u32> HasChests for Parted<P, STRIDE> {
    ghost chests = { λ chests. chests };

    ghost copied = { λ chests copy same. same };

    fn get(&self, index: u32) -> Option<&[Slot; SLOTS]> {
        self.parts[part_of(STRIDE, index)].get(index)
    }

    fn set(&mut self, index: u32, slot: u8, content: Slot) -> Result<(), AllocError> {
        set_in(STRIDE, &mut self.parts, index, slot, content)
    }

    fn put_down(&mut self, store: &mut Sections, index: u32, code: u8) -> Result<(), AllocError> {
        put_down_in(STRIDE, &mut self.parts, store, index, code)
    }

    fn same(&self, other: &Parted<P, STRIDE>) -> bool {
        same_parts(STRIDE, &self.parts, &other.parts)
    }
}

impl<P: HasChests, const STRIDE: u32> Clone for Parted<P, STRIDE> {
    ghost is_clone = { λ chests copy. copy ≡ chests };

    fn clone(&self) -> Result<Parted<P, STRIDE>, AllocError> {
        Ok(Parted {
            parts: Arc::try_clone(&self.parts)?,
        })
    }
}

// The number of the part in which the chest at an index stands.
#[tactic(auto, unfolding(crate::specs::ChestParts::part_of))]
fn part_of(stride: u32, index: u32) -> usize
    requires { 0 < stride }
    ensures value { result ≡ part_of stride index }
    ensures within { result < PARTS }
{
    (index / stride % PARTS) as usize
}

// So many copies of a part without a chest.
fn copies<P: HasChests>(alloc: Global, none: &P) -> Result<Vec<P>, AllocError>
    requires { P.chests none.now ≡ [] }
    ensures parted { IfOk result (λ parts.
        (stride : ℕ) → 0 < stride → AreParted P.chests stride parts.items) }
    ensures none { IfOk result (λ parts. chests_of P.chests parts.items ≡ []) }
{
    let mut parts = Vec::with_capacity(alloc, PARTS as usize)?;
    for _ in 0..PARTS {
        parts.push(none.clone()?)?;
    }
    Ok(parts)
}

// Puts something else into a slot of a chest in its part.
fn set_in<P: HasChests>(
    stride: u32,
    shared: &mut Arc<Vec<P>>,
    index: u32,
    slot: u8,
    content: Slot,
) -> Result<(), AllocError>
    requires parted { AreParted P.chests stride (arc_value shared.old).items }
    requires there { IsSome (slots_of_chest
        (chests_of P.chests (arc_value shared.old).items) index) }
    requires slot { slot < SLOTS }
    ensures parted { AreParted P.chests stride (arc_value shared.new).items }
    ensures ok { OnOk result (Changes
        (chests_of P.chests (arc_value shared.old).items)
        (chests_of P.chests (arc_value shared.new).items) index
        (refilled slot content
        (slots_of_chest (chests_of P.chests (arc_value shared.old).items) index))) }
    ensures err { OnErr result (chests_of P.chests (arc_value shared.new).items
        ≡ chests_of P.chests (arc_value shared.old).items) }
{
    let number = part_of(stride, index);
    let parts = Arc::make_mut(shared)?;
    parts[number].set(index, slot, content)
}

// Puts a byte down, with the chest that begins or goes there, in its part.
fn put_down_in<P: HasChests>(
    stride: u32,
    shared: &mut Arc<Vec<P>>,
    store: &mut Sections,
    index: u32,
    code: u8,
) -> Result<(), AllocError>
    requires parted { AreParted P.chests stride (arc_value shared.old).items }
    requires can { CanPut store.old (chests_of P.chests (arc_value shared.old).items) index code }
    ensures parted { AreParted P.chests stride (arc_value shared.new).items }
    ensures store { OnOk result (store.new ≡ slice_set store.old index code) }
    ensures chests { OnOk result (Changes
        (chests_of P.chests (arc_value shared.old).items)
        (chests_of P.chests (arc_value shared.new).items) index
        (begun (is_chest (cell_of code)))) }
    ensures err { OnErr result ((store.new ≡ store.old) × SameSlots
        (chests_of P.chests (arc_value shared.old).items)
        (chests_of P.chests (arc_value shared.new).items)) }
{
    let number = part_of(stride, index);
    let parts = Arc::make_mut(shared)?;
    parts[number].put_down(store, index, code)
}

// Whether all parts have chests at the same indices, with the same in each slot.
fn same_parts<P: HasChests>(stride: u32, these: &[P], those: &[P]) -> bool
    requires these { AreParted P.chests stride these.now }
    requires those { AreParted P.chests stride those.now }
    ensures { IsTrue result ↔ ((index : ℕ)
        → slots_of_chest (chests_of P.chests these.now) index
        ≡ slots_of_chest (chests_of P.chests those.now) index) }
{
    for number in 0..PARTS as usize {
        if !these[number].same(&those[number]) {
            return false;
        }
    }
    true
}
