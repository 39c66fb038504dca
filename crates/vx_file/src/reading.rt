//! The bytes of a regions file.
ghost use Rattle.std.specs.Prelude.{◌≡◌, ◌<◌, Err, length, IfOk, IfSome};
ghost use Rattle.vx_file.specs.RegionsFile.{most_bytes};
ghost use Rattle.vx_file.specs.declared.file_error.FileError.TheVariants.{TooLong};

use crate::file_error::FileError;
use crate::policy::MAX_BYTES;
use std::alloc::Global;
use std::io::Read;
use vx_lines::Reads;

/// How many bytes are asked for at once.
const BUFFER_BYTES: usize = 65_536;

/// Reads a regions file to its end: 1,048,576 bytes at most, of which one more is asked for, in
/// 33,554,432 reads at most.
pub fn read_bytes<R: Read>(alloc: Global, reader: &mut R) -> Result<Vec<u8>, FileError>
    ensures whole { IfOk result (λ bytes.
        IfSome (R.remaining reader.old) (λ known. bytes.items ≡ known)) }
    ensures long { result ≡ Err TooLong
        → IfSome (R.remaining reader.old) (λ known. most_bytes < length known) }
{
    let mut bytes = Vec::new(alloc);
    let mut buffer = vec![in alloc; 0; BUFFER_BYTES]?;
    let mut reads = Reads::new();
    while bytes.len() <= MAX_BYTES {
        let room = (MAX_BYTES + 1 - bytes.len()).min(BUFFER_BYTES);
        let count = reads.read(reader, &mut buffer, room)?;
        if count == 0 {
            return Ok(bytes);
        }
        bytes.extend_from_slice(&buffer[..count])?;
    }
    Err(FileError::TooLong)
}
