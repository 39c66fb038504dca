ghost use Rattle.std.specs.Prelude.{◌≡◌, ◌+◌, ◌<◌, ◌≤◌, not, false, Ok, [], ◌++◌, List, ℕ, length, position, ◌==◌, IfOk, OnOk, OnErr};
ghost use Rattle.std.specs.Io.KnownBytes.{Consumes, IsAtEnd};
ghost use Rattle.vx_lines.specs.Lines.{line_feed, TakesPiece};

use crate::read_failed::ReadFailed;
use crate::reads::Reads;
use memchr::memchr;
use std::alloc::{AllocError, Global};
use std::io::Read;
use std::marker::Model;

/// How many bytes a script may have.
pub const MAX_SCRIPT_BYTES: usize = 16_777_216;

/// How many bytes are asked for at once.
const BUFFER_BYTES: usize = 65_536;

/// The bytes of the script that were read and not yet taken.
#[derive(Drop)]
pub struct Input {
    buffer: Vec<u8>,
    at: usize,
    end: usize,
    bytes: usize,
    reads: Reads,
}

impl Model for Input {
    ghost use Rattle.std.specs.Prelude.{◌≤◌, vec_len, slice_range};
    ghost use Rattle.vx_lines.specs.Buffered.{Buffered};
    ghost use Rattle.vx_lines.specs.declared.input.TheConstants.{BUFFER_BYTES, MAX_SCRIPT_BYTES};

    ghost Value = { Buffered };

    ghost view = { λ a. record { rest = slice_range a.buffer.items a.at a.end; bytes = a.bytes } };

    ghost invariant = { λ a. (a.at ≤ a.end) × (a.end ≤ vec_len a.buffer)
        × (BUFFER_BYTES ≤ vec_len a.buffer) × (a.bytes ≤ MAX_SCRIPT_BYTES) };
}

impl Input {
    ghost use Rattle.vx_lines.specs.Buffered.{nothing_read};

    /// Nothing read yet.
    pub fn new(alloc: Global) -> Result<Input, AllocError>
        ensures { IfOk result (λ input. input ≡ nothing_read) }
    {
        let buffer = vec![in alloc; 0; BUFFER_BYTES]?;
        Ok(Input {
            buffer,
            at: 0,
            end: 0,
            bytes: 0,
            reads: Reads::new(),
        })
    }

    /// Reads on, once all that was read is taken. `Ok(false)` at the end of the script. An
    /// interrupted read is made again.
    pub fn fill<R: Read>(&mut self, reader: &mut R) -> Result<bool, ReadFailed>
        requires { self.old.rest ≡ [] }
        ensures read { OnOk result
            (Consumes (R.remaining reader.old) (R.remaining reader.new) self.new.rest) }
        ensures count { OnOk result (self.new.bytes ≡ self.old.bytes + length self.new.rest) }
        ensures some { IfOk result (λ more. more ≡ not (length self.new.rest == 0)) }
        ensures end { result ≡ Ok false → (self.new.rest ≡ []) × IsAtEnd (R.remaining reader.new) }
        ensures err { OnErr result (self.new ≡ self.old) }
        ensures within { self.new.bytes ≤ MAX_SCRIPT_BYTES }
    {
        let left = MAX_SCRIPT_BYTES - self.bytes;
        let room = left.clamp(1, BUFFER_BYTES);
        let count = self.reads.read(reader, &mut self.buffer, room)?;
        if left < count {
            return Err(ReadFailed);
        }
        self.at = 0;
        self.end = count;
        self.bytes += count;
        Ok(count != 0)
    }

    /// Moves the bytes up to the next line feed to the end of the line and drops the feed; all of
    /// them, and `Ok(false)`, where no line feed was read yet. Want of memory leaves both as they
    /// were.
    pub fn take_line(&mut self, line: &mut Vec<u8>) -> Result<bool, AllocError>
        ensures ok { IfOk result (λ found. (piece : List ℕ)
            × TakesPiece found self.old.rest piece self.new.rest
            × (line.new.items ≡ line.old.items ++ piece)) }
        ensures bytes { self.new.bytes ≡ self.old.bytes }
        ensures err { OnErr result ((self.new ≡ self.old) × (line.new.items ≡ line.old.items)) }
    {
        let rest = &self.buffer[self.at..self.end];
        match feed_in(rest) {
            Some(length) => {
                line.extend_from_slice(&rest[..length])?;
                self.at += length + 1;
                Ok(true)
            }
            None => {
                line.extend_from_slice(rest)?;
                self.at = self.end;
                Ok(false)
            }
        }
    }
}

// Where the first line feed is.
fn feed_in(bytes: &[u8]) -> Option<usize>
    ensures { result ≡ position (λ b. b == line_feed) bytes.now }
{
    memchr(b'\n', bytes)
}
