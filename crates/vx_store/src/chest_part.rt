ghost use Rattle.std.specs.Prelude.{◌≡◌, [], IfOk};

use crate::chests::Chests;
use crate::has_chests::HasChests;
use crate::put_down::put_down;
use crate::stack::{SLOTS, Slot};
use std::alloc::{AllocError, Global};
use std::marker::Model;
use std::sync::Arc;
use vx_section::Sections;

/// Some of the chests in a sector. Copies share them until one of them changes.
#[derive(Drop)]
pub struct ChestPart {
    chests: Arc<Chests>,
}

impl Model for ChestPart {
    ghost use Rattle.std.specs.Arc.{arc_value};
    ghost use Rattle.vx_store.specs.Chests.{ChestData};

    ghost Value = { ChestData };

    ghost view = { λ a. arc_value a.chests };
}

impl ChestPart {
    /// No chests.
    pub fn new(alloc: Global) -> Result<ChestPart, AllocError>
        ensures { IfOk result (λ part. part ≡ []) }
    {
        Ok(ChestPart {
            chests: Arc::new(alloc, Chests::new(alloc))?,
        })
    }
}

impl HasChests for ChestPart {
    ghost chests = { λ part. part };

    ghost copied = { λ part copy same. same };

    fn get(&self, index: u32) -> Option<&[Slot; SLOTS]> {
        self.chests.get(index)
    }

    fn set(&mut self, index: u32, slot: u8, content: Slot) -> Result<(), AllocError> {
        Arc::make_mut(&mut self.chests)?.set(index, slot, content);
        Ok(())
    }

    fn put_down(&mut self, store: &mut Sections, index: u32, code: u8) -> Result<(), AllocError> {
        put_down(store, Arc::make_mut(&mut self.chests)?, index, code)
    }

    fn same(&self, other: &ChestPart) -> bool {
        self.chests.same(&other.chests)
    }
}

impl Clone for ChestPart {
    ghost is_clone = { λ part copy. copy ≡ part };

    fn clone(&self) -> Result<ChestPart, AllocError> {
        Ok(ChestPart {
            chests: Arc::try_clone(&self.chests)?,
        })
    }
}
