ghost use Rattle.std.specs.Prelude.{◌≡◌, ◌<◌, ◌≤◌, ◌↔◌, true, false, length, slice_index_or, slice_set, IsTrue, IfOk, OnOk, OnErr};
ghost use Rattle.std.specs.Arc.{arc_value};
ghost use Rattle.vx_section.specs.Forms.{admitted, with_byte, fresh, IsFull};

use crate::bytes::{Bytes, write_each};
use crate::few::{Few, with_second, write_few};
use std::alloc::{AllocError, Global};
use std::marker::Model;
use std::sync::Arc;

#[derive(Drop)]
enum Form {
    One(u8),
    Few(Arc<Few>),
    Each(Arc<Bytes>),
}

/// A byte at each of the 4,096 places of a section: one for all, or up to sixteen different ones
/// with four bits a place, or one each. Copies share what they hold until one of them changes.
#[derive(Drop)]
pub struct Section {
    kept: Form,
}

impl Model for Section {
    ghost use Rattle.vx_section.specs.Forms.{SectionData};
    ghost use Rattle.vx_section.specs.Kept.{shown};

    ghost Value = { SectionData };

    ghost view = { λ s. shown s.kept };
}

impl Section {
    /// That byte at each place. It takes no memory.
    pub fn new(byte: u8) -> Section
        ensures { result ≡ fresh byte }
    {
        Section {
            kept: Form::One(byte),
        }
    }

    /// The form: 1 for one byte, 2 for up to sixteen, 3 for a byte each.
    pub fn form(&self) -> u8
        ensures value { result ≡ self.now.form }
        ensures known { (1 ≤ result) × (result ≤ 3) }
    {
        match &self.kept {
            Form::One(_) => 1,
            Form::Few(few) => few.form(),
            Form::Each(_) => 3,
        }
    }

    /// What holds of every section.
    pub fn soundness(&self)
        ensures { length self.now.bytes ≡ 4096 }
    {
        match &self.kept {
            Form::One(_) => {}
            Form::Few(few) => few.soundness(),
            Form::Each(bytes) => bytes.soundness(),
        }
    }

    /// The byte at a place.
    #[inline(always)]
    pub fn get(&self, place: u32) -> u8
        requires { place < 4096 }
        ensures { result ≡ slice_index_or self.now.bytes place 0 }
    {
        match &self.kept {
            Form::One(byte) => *byte,
            Form::Few(few) => few.get(place),
            Form::Each(bytes) => bytes.get(place),
        }
    }

    /// Puts a byte down at a place. Where it stands there already nothing is copied, and where
    /// copies share what changes it is copied first. A palette grows and never shrinks.
    pub fn set(&mut self, alloc: Global, place: u32, byte: u8) -> Result<(), AllocError>
        requires { place < 4096 }
        ensures ok { OnOk result (self.new ≡ with_byte (admitted self.old byte) place byte) }
        ensures err { OnErr result (self.new ≡ self.old) }
    {
        if self.write(place, byte)? {
            return Ok(());
        }
        *self = self.wider(alloc, place, byte)?;
        Ok(())
    }

    // Puts a byte down at a place, if the form stays as it is; if not, answers `false`.
    #[inline(always)]
    fn write(&mut self, place: u32, byte: u8) -> Result<bool, AllocError>
        requires { place < 4096 }
        ensures done { IfOk result (λ done. done ≡ true
            → self.new ≡ with_byte (admitted self.old byte) place byte) }
        ensures left { IfOk result (λ done. done ≡ false → self.new ≡ self.old) }
        ensures full { IfOk result (λ done. done ≡ false → IsFull self.old byte) }
        ensures err { OnErr result (self.new ≡ self.old) }
    {
        match &mut self.kept {
            Form::One(old) => Ok(*old == byte),
            Form::Few(few) => write_few(few, place, byte),
            Form::Each(bytes) => {
                write_each(bytes, place, byte)?;
                Ok(true)
            }
        }
    }

    // The section in the next form, with that byte at a place.
    fn wider(&self, alloc: Global, place: u32, byte: u8) -> Result<Section, AllocError>
        requires within { place < 4096 }
        requires full { IsFull self.now byte }
        ensures { IfOk result (λ s. s ≡ with_byte (admitted self.now byte) place byte) }
    {
        let kept = match &self.kept {
            Form::One(old) => Form::Few(with_second(alloc, *old, place, byte)?),
            Form::Few(few) => Form::Each(widened(alloc, few, place, byte)?),
            Form::Each(_) => unreachable!(),
        };
        Ok(Section { kept })
    }

    /// Whether both have the same byte at each place, in whatever forms.
    pub fn same(&self, other: &Section) -> bool
        ensures { IsTrue result ↔ self.now.bytes ≡ other.now.bytes }
    {
        match (&self.kept, &other.kept) {
            (Form::Each(mine), Form::Each(its)) => mine.same(its),
            (Form::Few(mine), Form::Few(its)) => mine.is_alike(its) || self.same_places(other),
            (Form::One(mine), Form::One(its)) => mine == its,
            _ => self.same_places(other),
        }
    }

    // Compares them place by place, whatever their forms.
    fn same_places(&self, other: &Section) -> bool
        ensures { IsTrue result ↔ self.now.bytes ≡ other.now.bytes }
    {
        self.soundness();
        other.soundness();
        for place in 0..4096 {
            if self.get(place) != other.get(place) {
                return false;
            }
        }
        true
    }
}

impl Clone for Section {
    ghost is_clone = { λ section copy. copy ≡ section };

    fn clone(&self) -> Result<Section, AllocError> {
        let kept = match &self.kept {
            Form::One(byte) => Form::One(*byte),
            Form::Few(few) => Form::Few(Arc::try_clone(few)?),
            Form::Each(bytes) => Form::Each(Arc::try_clone(bytes)?),
        };
        Ok(Section { kept })
    }
}

// A byte each, with one put down at a place.
fn widened(alloc: Global, few: &Few, place: u32, byte: u8) -> Result<Arc<Bytes>, AllocError>
    requires { place < 4096 }
    ensures bytes { IfOk result (λ bytes. arc_value bytes ≡ slice_set few.now.bytes place byte) }
    ensures form { few.now.form ≡ 2 }
{
    few.soundness();
    Ok(Arc::new(alloc, few.unpacked_with(place, byte))?)
}
