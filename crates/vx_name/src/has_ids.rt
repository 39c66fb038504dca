ghost use Rattle.std.specs.Prelude.{◌≡◌, [], Some, None, OnOk, OnErr};
ghost use Rattle.std.specs.Map.{lookup};
ghost use Rattle.vx_name.specs.IdParts.{IdList, hash_of_id};
ghost use Rattle.vx_name.specs.Ids.{same_id};
ghost use Rattle.vx_name.specs.IdUpdates.{IsUpdated};

use crate::id::Id;
use std::alloc::{AllocError, Global};

/// What has ids with their numbers, and shares them with its copies until one of them changes. Each
/// call takes the id's hash too, so that it is computed once, however deep the id stands.
pub(crate) trait HasIds: Clone + Drop {
    /// The ids with their numbers.
    ghost ids: { Self → IdList };

    /// No id has a number. It takes no memory.
    fn none() -> Self
        ensures { ids result ≡ [] };

    /// The number of that id.
    fn get(&self, hash: usize, id: &Id) -> Option<u32>
        requires { hash ≡ hash_of_id id.now }
        ensures { result ≡ lookup (same_id id.now) (ids self.now) };

    /// Gives the id this number.
    fn add(&mut self, alloc: Global, hash: usize, id: Id, number: u32) -> Result<(), AllocError>
        requires { hash ≡ hash_of_id id }
        ensures ok { OnOk result (IsUpdated id (Some number) (ids self.old) (ids self.new)) }
        ensures err { OnErr result (ids self.new ≡ ids self.old) };

    /// Takes the number from the id.
    fn remove(&mut self, hash: usize, id: &Id) -> Result<(), AllocError>
        requires { hash ≡ hash_of_id id.now }
        ensures ok { OnOk result (IsUpdated id.now None (ids self.old) (ids self.new)) }
        ensures err { OnErr result (ids self.new ≡ ids self.old) };

    /// A copy has the same ids with the same numbers.
    ghost copied: { (held copy : Self) → Self.is_clone held copy → ids copy ≡ ids held };
}
