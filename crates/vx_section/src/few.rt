ghost use Rattle.std.specs.Prelude.{◌≡◌, ◌<◌, ◌++◌, ◌∷◌, [], ◌&&◌, true, false, nat_eq, nat_lt, length, None, IfOk, IfSome, OnOk, OnErr, slice_index_or, slice_set};
ghost use Rattle.std.specs.Arc.{arc_value};
ghost use Rattle.std.specs.List.{list_any};
ghost use Rattle.vx_section.specs.Forms.{kind_at, filled, admits, admitted, with_byte, IsFull};

use crate::bytes::Bytes;
use crate::pairs::{byte_of, find, set_number, zeros};
use std::alloc::{AllocError, Global};
use std::marker::Model;
use std::sync::Arc;

/// Up to sixteen different bytes, and the number of one of them for each place, two numbers to a
/// byte.
#[derive(Drop)]
pub(crate) struct Few {
    palette: [u8; 16],
    used: u8,
    pairs: [u8; 2048],
}

impl Model for Few {
    ghost use Rattle.std.specs.Prelude.{take};
    ghost use Rattle.vx_section.specs.Forms.{SectionData, IsFew, unpacked};

    ghost Value = { SectionData };

    ghost view = { λ f. record {
      bytes = unpacked f.palette f.pairs;
      form = 2;
      palette = take f.used f.palette;
    } };

    ghost invariant = { λ f. IsFew f.palette f.pairs f.used };
}

impl Few {
    /// One byte at each place, and another one in the palette.
    pub(crate) fn of_two(everywhere: u8, other: u8) -> Few
        ensures { result ≡ record {
          bytes = filled 4096 everywhere;
          form = 2;
          palette = everywhere ∷ other ∷ [];
        } }
    {
        Few {
            palette: [everywhere, other, 0, 0, 0, 0, 0, 0, 0, 0, 0, 0, 0, 0, 0, 0],
            used: 2,
            pairs: zeros(),
        }
    }

    /// What holds of every one.
    pub(crate) fn soundness(&self)
        ensures length { length self.now.bytes ≡ 4096 }
        ensures form { self.now.form ≡ 2 }
    {
        let _ = &self.pairs;
    }

    /// The form of a section that is kept so.
    pub(crate) fn form(&self) -> u8
        ensures value { result ≡ self.now.form }
        ensures two { result ≡ 2 }
    {
        let _ = &self.pairs;
        2
    }

    /// The byte at a place.
    #[inline(always)]
    pub(crate) fn get(&self, place: u32) -> u8
        requires { place < 4096 }
        ensures value { result ≡ slice_index_or self.now.bytes place 0 }
        ensures known { list_any (nat_eq result) self.now.palette ≡ true }
    {
        // The palette is read before it is known which byte of it is asked for, so that the two are
        // fetched from memory at one time, and not one behind the other.
        let palette = self.palette;
        byte_of(&palette, &self.pairs, place)
    }

    /// The number of a byte in the palette.
    pub(crate) fn number_of(&self, byte: u8) -> Option<u8>
        ensures found { IfSome result (λ n.
            (n < length self.now.palette) × (kind_at self.now.palette n ≡ byte)) }
        ensures none { result ≡ None → list_any (nat_eq byte) self.now.palette ≡ false }
    {
        find(&self.palette, self.used, byte)
    }

    /// Whether one more byte fits in the palette.
    pub(crate) fn has_room(&self) -> bool
        ensures { result ≡ nat_lt (length self.now.palette) 16 }
    {
        self.used < 16
    }

    /// Puts one more byte in the palette, and answers its number.
    pub(crate) fn add(&mut self, byte: u8) -> u8
        requires { length self.old.palette < 16 }
        ensures number { result ≡ length self.old.palette }
        ensures palette { self.new ≡ record {
          bytes = self.old.bytes;
          form = 2;
          palette = self.old.palette ++ byte ∷ [];
        } }
    {
        let number = self.used;
        self.palette[number as usize] = byte;
        self.used += 1;
        number
    }

    /// Puts the byte of that number down at a place.
    #[inline(always)]
    pub(crate) fn put(&mut self, place: u32, number: u8)
        requires within { place < 4096 }
        requires known { number < length self.old.palette }
        ensures { self.new ≡ with_byte self.old place (kind_at self.old.palette number) }
    {
        set_number(&mut self.pairs, place, number);
    }

    /// Puts a byte down at a place that the palette lacks.
    pub(crate) fn put_more(&mut self, place: u32, byte: u8)
        requires within { place < 4096 }
        requires room { length self.old.palette < 16 }
        ensures { self.new ≡ record {
          bytes = slice_set self.old.bytes place byte;
          form = 2;
          palette = self.old.palette ++ byte ∷ [];
        } }
    {
        let number = self.add(byte);
        self.put(place, number);
    }

    /// A byte each, with one put down at a place.
    pub(crate) fn unpacked_with(&self, place: u32, byte: u8) -> Bytes
        requires { place < 4096 }
        ensures { result ≡ slice_set self.now.bytes place byte }
    {
        let mut bytes = self.unpacked();
        bytes.put(place, byte);
        bytes
    }

    // A byte each.
    fn unpacked(&self) -> Bytes
        ensures { result ≡ self.now.bytes }
    {
        self.soundness();
        let mut bytes = [0_u8; 4096];
        for place in 0..4096_u32 {
            bytes[place as usize] = self.get(place);
        }
        Bytes::of(bytes)
    }

    /// Whether both are kept alike, and so have the same byte at each place.
    pub(crate) fn is_alike(&self, other: &Few) -> bool
        ensures { result ≡ true → self.now.bytes ≡ other.now.bytes }
    {
        self.palette == other.palette && self.pairs == other.pairs
    }
}

impl Clone for Few {
    ghost is_clone = { λ few copy. copy ≡ few };

    fn clone(&self) -> Result<Few, AllocError> {
        Ok(Few {
            palette: self.palette,
            used: self.used,
            pairs: self.pairs,
        })
    }
}

/// A section's one byte at each place but one, where another one stands.
pub(crate) fn with_second(
    alloc: Global,
    everywhere: u8,
    place: u32,
    other: u8,
) -> Result<Arc<Few>, AllocError>
    requires { place < 4096 }
    ensures { IfOk result (λ few. arc_value few ≡ record {
      bytes = slice_set (filled 4096 everywhere) place other;
      form = 2;
      palette = everywhere ∷ other ∷ [];
    }) }
{
    let mut few = Few::of_two(everywhere, other);
    few.put(place, 1);
    Ok(Arc::new(alloc, few)?)
}

/// Puts a byte down at a place, if it is in the palette or still fits there; if not, answers
/// `false`. What copies share is copied before it changes.
pub(crate) fn write_few(few: &mut Arc<Few>, place: u32, byte: u8) -> Result<bool, AllocError>
    requires { place < 4096 }
    ensures done { IfOk result (λ done. done ≡ true → arc_value few.new
        ≡ with_byte (admitted (arc_value few.old) byte) place byte) }
    ensures left { IfOk result (λ done. done ≡ false → arc_value few.new ≡ arc_value few.old) }
    ensures full { IfOk result (λ done. done ≡ false → IsFull (arc_value few.old) byte) }
    ensures err { OnErr result (arc_value few.new ≡ arc_value few.old) }
{
    few.soundness();
    if few.get(place) == byte {
        return Ok(true);
    }
    if let Some(number) = few.number_of(byte) {
        put_known(few, place, number)?;
        return Ok(true);
    }
    if few.has_room() {
        put_new(few, place, byte)?;
        return Ok(true);
    }
    Ok(false)
}

// Puts the byte of a number down at a place.
fn put_known(few: &mut Arc<Few>, place: u32, number: u8) -> Result<(), AllocError>
    requires within { place < 4096 }
    requires known { number < length (arc_value few.old).palette }
    ensures ok { OnOk result (arc_value few.new
        ≡ with_byte (arc_value few.old) place (kind_at (arc_value few.old).palette number)) }
    ensures err { OnErr result (arc_value few.new ≡ arc_value few.old) }
{
    Arc::make_mut(few)?.put(place, number);
    Ok(())
}

// Puts a byte down at a place that the palette lacks.
fn put_new(few: &mut Arc<Few>, place: u32, byte: u8) -> Result<(), AllocError>
    requires within { place < 4096 }
    requires room { length (arc_value few.old).palette < 16 }
    ensures ok { OnOk result (arc_value few.new ≡ record {
      bytes = slice_set (arc_value few.old).bytes place byte;
      form = 2;
      palette = (arc_value few.old).palette ++ byte ∷ [];
    }) }
    ensures err { OnErr result (arc_value few.new ≡ arc_value few.old) }
{
    Arc::make_mut(few)?.put_more(place, byte);
    Ok(())
}
