ghost use Rattle.std.specs.Prelude.{◌≡◌, ◌+◌, ◌≤◌, ◌++◌, ◌∷◌, not, ◌==◌, ℕ, List, [], length, true, false, Ok, Err, IfOk, OnOk, if◌then◌else◌};
ghost use Rattle.std.specs.Io.KnownBytes.{Consumes, IsAtEnd};
ghost use Rattle.vx_lines.specs.declared.input.TheConstants.{MAX_SCRIPT_BYTES};
ghost use Rattle.vx_lines.specs.declared.line_error.LineError.TheVariants.{TooLong};

use crate::input::{Input, MAX_SCRIPT_BYTES};
use crate::line_error::LineError;
use crate::read_failed::ReadFailed;
use std::alloc::{AllocError, Global};
use std::io::Read;
use std::marker::Model;

/// How many bytes a line may have, its line feed not counted.
pub const MAX_LINE_BYTES: usize = 4_096;

/// The lines of a script, taken one after another from what was read of it.
#[derive(Drop)]
pub struct Lines {
    input: Input,
    line: Vec<u8>,
    // Whether the line has not ended.
    unfinished: bool,
    number: u32,
}

impl Model for Lines {
    ghost use Rattle.std.specs.Prelude.{◌+◌, ◌≤◌, [], length, if◌then◌else◌};
    ghost use Rattle.vx_lines.specs.Lines.{IsPiece};
    ghost use Rattle.vx_lines.specs.Reading.{Reading};
    ghost use Rattle.vx_lines.specs.declared.input.TheConstants.{MAX_SCRIPT_BYTES};

    ghost Value = { Reading };

    ghost view = { λ a. record {
      front = if a.unfinished then a.line.items else [];
      rest = a.input.rest;
      line = a.line.items;
      number = a.number;
      bytes = a.input.bytes;
    } };

    // Each line that was taken took a byte at least, and so does a front.
    ghost invariant = { λ a. let front = if a.unfinished then a.line.items else [] in
        IsPiece front × (a.number + length front + length a.input.rest ≤ a.input.bytes)
        × (a.input.bytes ≤ MAX_SCRIPT_BYTES) };
}

impl Lines {
    ghost use Rattle.vx_lines.specs.Lines.{lines_of, IsNextLong};
    ghost use Rattle.vx_lines.specs.Reading.{pending, no_line};

    /// No line read yet.
    pub fn new(alloc: Global) -> Result<Lines, AllocError>
        ensures { IfOk result (λ lines. lines ≡ no_line) }
    {
        Ok(Lines {
            input: Input::new(alloc)?,
            line: Vec::new(alloc),
            unfinished: false,
            number: 0,
        })
    }

    /// The last line that was taken, without its line feed.
    pub fn line(&self) -> &[u8]
        ensures { result.now ≡ self.now.line }
    {
        &self.line
    }

    /// How many lines were taken, which is the number of the last one.
    pub fn number(&self) -> u32
        ensures value { result ≡ self.now.number }
        ensures within { result ≤ MAX_SCRIPT_BYTES }
    {
        self.number
    }

    /// Takes the next line. `Ok(false)` where its end was not read yet: then all that was read is
    /// taken, and [`Lines::fill`] reads on. After an error nothing is said of what is left.
    pub fn take(&mut self) -> Result<bool, LineError>
        ensures line { result ≡ Ok true → (more : List ℕ)
            → lines_of (pending self.old ++ more)
            ≡ self.new.line ∷ lines_of (pending self.new ++ more) }
        ensures bytes { self.new.bytes ≡ self.old.bytes }
        ensures number { result ≡ Ok true → self.new.number ≡ self.old.number + 1 }
        ensures wanting { result ≡ Ok false → (pending self.new ≡ pending self.old)
            × (self.new.rest ≡ []) × (self.new.number ≡ self.old.number) }
        ensures long { result ≡ Err TooLong
            → (self.new.number ≡ self.old.number)
            × ((more : List ℕ) → IsNextLong MAX_LINE_BYTES (pending self.old ++ more)) }
        ensures within { IfOk result (λ _. self.new.number ≤ MAX_SCRIPT_BYTES) }
    {
        begin(&mut self.line, &mut self.unfinished);
        let found = self.input.take_line(&mut self.line)?;
        if MAX_LINE_BYTES < self.line.len() {
            return Err(LineError::TooLong);
        }
        if found {
            self.number += 1;
            self.unfinished = false;
        }
        Ok(found)
    }

    /// Reads on, once all that was read is taken. `Ok(false)` at the end of the script. After an
    /// error nothing is said of the lines.
    pub fn fill<R: Read>(&mut self, reader: &mut R) -> Result<bool, ReadFailed>
        requires { self.old.rest ≡ [] }
        ensures read { OnOk result ((bytes : List ℕ)
            × Consumes (R.remaining reader.old) (R.remaining reader.new) bytes
            × (pending self.new ≡ pending self.old ++ bytes)
            × (self.new.bytes ≡ self.old.bytes + length bytes)) }
        ensures number { self.new.number ≡ self.old.number }
        ensures end { result ≡ Ok false → (self.new.rest ≡ []) × IsAtEnd (R.remaining reader.new) }
    {
        self.input.fill(reader)
    }

    /// At the end of the script: whether a last line without a line feed was read, which is then
    /// taken.
    pub fn finish(&mut self) -> bool
        requires { self.old.rest ≡ [] }
        ensures line { result ≡ true → (lines_of (pending self.old) ≡ self.new.line ∷ [])
            × (self.new.number ≡ self.old.number + 1) }
        ensures end { result ≡ false
            → (pending self.old ≡ []) × (self.new.number ≡ self.old.number) }
        ensures bytes { self.new.bytes ≡ self.old.bytes }
        ensures within { (self.new.number ≤ MAX_SCRIPT_BYTES)
            × (self.new.bytes ≤ MAX_SCRIPT_BYTES) }
        ensures all { result ≡ true → pending self.new ≡ [] }
    {
        if !self.unfinished || self.line.is_empty() {
            return false;
        }
        self.number += 1;
        self.unfinished = false;
        true
    }
}

// Begins another line where the last one has ended.
fn begin(line: &mut Vec<u8>, unfinished: &mut bool)
    ensures unfinished { unfinished.new ≡ true }
    ensures line { line.new.items ≡ (if unfinished.old then line.old.items else []) }
{
    if !*unfinished {
        line.clear();
        *unfinished = true;
    }
}
