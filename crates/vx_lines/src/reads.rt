ghost use Rattle.std.specs.Prelude.{◌≡◌, ◌<◌, ◌≤◌, length, take, IfOk};
ghost use Rattle.std.specs.Io.KnownBytes.{Consumes, IsAtEnd};

use crate::read_failed::ReadFailed;
use std::io::{ErrorKind, Read};

/// How many reads an input may take, a script or a regions file.
const MAX_READS: u32 = 33_554_432;

/// How many reads of an input were made.
#[derive(Drop)]
pub struct Reads {
    made: u32,
}

impl Reads {
    /// None yet.
    pub fn new() -> Reads {
        Reads { made: 0 }
    }

    /// Reads once into the front of the buffer, which has so much room, and again where a read was
    /// interrupted, until there were 33,554,432 in all. It answers how many bytes were read; 0 at
    /// the end of the input alone.
    pub fn read<R: Read>(
        &mut self,
        reader: &mut R,
        buffer: &mut [u8],
        room: usize,
    ) -> Result<usize, ReadFailed>
        requires some { 0 < room }
        requires within { room ≤ length buffer.old }
        ensures count { IfOk result (λ n. n ≤ room) }
        ensures bytes { IfOk result (λ n.
            Consumes (R.remaining reader.old) (R.remaining reader.new) (take n buffer.new)) }
        ensures end { IfOk result (λ n. n ≡ 0 → IsAtEnd (R.remaining reader.new)) }
        ensures long { length buffer.new ≡ length buffer.old }
    {
        while self.made < MAX_READS {
            self.made += 1;
            match reader.read(&mut buffer[..room]) {
                Ok(n) => return Ok(n),
                Err(error) if error.kind() == ErrorKind::Interrupted => {}
                Err(_) => return Err(ReadFailed),
            }
        }
        Err(ReadFailed)
    }
}
