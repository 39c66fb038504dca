ghost use Rattle.std.specs.Prelude.{◌≡◌, ◌<◌, ◌↔◌, length, IsTrue, OnOk, OnErr, slice_index_or, slice_set};
ghost use Rattle.std.specs.Arc.{arc_value};

use std::alloc::AllocError;
use std::marker::Model;
use std::sync::Arc;

/// A byte for each of 4,096 places.
#[derive(Drop)]
pub(crate) struct Bytes {
    bytes: [u8; 4096],
}

impl Model for Bytes {
    ghost use Rattle.std.specs.Prelude.{◌≡◌, List, ℕ, length};

    ghost Value = { List ℕ };

    ghost view = { λ b. b.bytes };

    ghost invariant = { λ b. length b.bytes ≡ 4096 };
}

impl Bytes {
    /// These bytes.
    pub(crate) fn of(bytes: [u8; 4096]) -> Bytes
        requires { length bytes ≡ 4096 }
        ensures { result ≡ bytes }
    {
        Bytes { bytes }
    }

    /// What holds of every one.
    pub(crate) fn soundness(&self)
        ensures { length self.now ≡ 4096 }
    {
        let _ = &self.bytes;
    }

    /// The byte at a place.
    #[inline(always)]
    pub(crate) fn get(&self, place: u32) -> u8
        requires { place < 4096 }
        ensures { result ≡ slice_index_or self.now place 0 }
    {
        self.bytes[place as usize]
    }

    /// Puts a byte down at a place.
    #[inline(always)]
    pub(crate) fn put(&mut self, place: u32, byte: u8)
        requires { place < 4096 }
        ensures { self.new ≡ slice_set self.old place byte }
    {
        self.bytes[place as usize] = byte;
    }

    /// Whether both have the same byte at each place.
    pub(crate) fn same(&self, other: &Bytes) -> bool
        ensures { IsTrue result ↔ self.now ≡ other.now }
    {
        self.bytes == other.bytes
    }
}

impl Clone for Bytes {
    ghost is_clone = { λ bytes copy. copy ≡ bytes };

    fn clone(&self) -> Result<Bytes, AllocError> {
        Ok(Bytes { bytes: self.bytes })
    }
}

/// Puts a byte down at a place. What copies share is copied before it changes.
pub(crate) fn write_each(bytes: &mut Arc<Bytes>, place: u32, byte: u8) -> Result<(), AllocError>
    requires { place < 4096 }
    ensures ok { OnOk result (arc_value bytes.new ≡ slice_set (arc_value bytes.old) place byte) }
    ensures err { OnErr result (arc_value bytes.new ≡ arc_value bytes.old) }
{
    if bytes.get(place) == byte {
        return Ok(());
    }
    Arc::make_mut(bytes)?.put(place, byte);
    Ok(())
}
