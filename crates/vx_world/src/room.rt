ghost use Rattle.std.specs.Prelude.{◌≡◌, ◌≤◌, [], vec_len, vec_capacity};

use crate::slot::Slot;
use crossbeam_utils::CachePadded;
use std::alloc::{AllocError, Global};
use std::sync::Mutex;
use vx_keeper::Places;

/// Room for the sectors of a world that ends.
#[derive(Drop)]
pub struct Room<A: Places> {
    slots: Vec<Slot<A>>,
    ghost none_yet: { slots.items ≡ [] },
    ghost for_all: { A.all ≤ vec_capacity slots },
}

impl<A: Places> Room<A> {
    /// Room for so many sectors, all of the world.
    pub fn new(alloc: Global, count: usize) -> Result<Room<A>, AllocError>
        requires { count ≡ A.all }
    {
        Ok(Room {
            slots: Vec::with_capacity(alloc, count)?,
        })
    }

    /// What stands under these locks, in that order. It takes no memory.
    pub fn filled(self, locks: Vec<CachePadded<Mutex<Slot<A>>>>) -> Vec<Slot<A>>
        requires { vec_len locks ≡ A.all }
        ensures { vec_len result ≡ A.all }
    {
        let mut slots = self.slots;
        for lock in locks {
            slots.push_reserved(lock.into_inner().into_inner());
        }
        slots
    }
}
