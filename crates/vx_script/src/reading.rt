//! The next line of the script, and what it says.
ghost use Rattle.std.specs.Prelude.{◌≡◌, ◌+◌, ◌≤◌, true, false, Ok, Err, IfOk, IfErr, IfSome, option_map};
ghost use Rattle.std.specs.Io.KnownBytes.{Keeps, IsAtEnd, prepend_known};
ghost use Rattle.vx_grammar.specs.ScriptLines.{said};
ghost use Rattle.vx_lines.specs.Lines.{TakesLine, IsNextLong};
ghost use Rattle.vx_lines.specs.Reading.{pending};
ghost use Rattle.vx_lines.specs.declared.input.TheConstants.{MAX_SCRIPT_BYTES};
ghost use Rattle.vx_lines.specs.declared.lines.TheConstants.{MAX_LINE_BYTES};
ghost use Rattle.vx_script.specs.Known.{KeepsSize, IsWithin};
ghost use Rattle.vx_script.specs.Faults.{IsOwn, IsOfRun};
ghost use Rattle.vx_script.specs.Headers.{read_of};

use crate::fault::Fault;
use std::alloc::Global;
use std::io::{Read, Write};
use vx_base::Unread;
use vx_grammar::{Line, read_line};
use vx_lines::{LineError, Lines, MAX_LINE_BYTES};

/// Takes the next line; `Ok(false)` where there is none. All that was written goes out before more
/// input is asked for.
pub fn next_line<R: Read, W: Write>(
    lines: &mut Lines,
    reader: &mut R,
    writer: &mut W,
) -> Result<bool, Fault>
    ensures line { result ≡ Ok true → TakesLine
        (prepend_known (pending lines.old) (R.remaining reader.old))
        (prepend_known (pending lines.new) (R.remaining reader.new)) lines.new.line }
    ensures number { result ≡ Ok true → lines.new.number ≡ lines.old.number + 1 }
    ensures end { result ≡ Ok false
        → IsAtEnd (prepend_known (pending lines.old) (R.remaining reader.old))
        × (lines.new.number ≡ lines.old.number)
        × IsWithin lines.old (R.remaining reader.old) }
    ensures size { IfOk result (λ _.
        KeepsSize lines.old (R.remaining reader.old) lines.new (R.remaining reader.new)) }
    ensures within { IfOk result (λ _. lines.new.number ≤ MAX_SCRIPT_BYTES) }
    ensures written { IfOk result (λ _. Keeps (W.contents writer.old) (W.contents writer.new)) }
    ensures long { (fault : Fault) → result ≡ Err fault → IsOwn fault
        → (fault ≡ Fault.Syntax (lines.old.number + 1))
        × Keeps (W.contents writer.old) (W.contents writer.new)
        × IfSome (prepend_known (pending lines.old) (R.remaining reader.old))
        (IsNextLong MAX_LINE_BYTES) }
    ensures fault { IfErr result IsOfRun }
{
    'pieces: for _ in 0..u64::MAX {
        match lines.take() {
            Ok(true) => return Ok(true),
            Ok(false) => {}
            Err(LineError::TooLong) => return Err(Fault::Syntax(lines.number() + 1)),
            Err(LineError::NoMemory) => return Err(Fault::NoMemory),
        }
        writer.flush().map_err(|_| Fault::WriteFailed)?;
        if !lines.fill(reader)? {
            return Ok(lines.finish());
        }
    }
    Err(Fault::ReadFailed)
}

/// What a line says; nothing where it is too long, or none of the lines of a script.
#[inline(always)]
#[tactic(auto, unfolding(crate::specs::Headers::read_of))]
pub fn read_of(alloc: Global, line: &[u8]) -> Result<Option<Line>, Fault>
    ensures ok { IfOk result (λ read. option_map said read ≡ read_of line.now) }
    ensures err { IfErr result (λ fault. fault ≡ Fault.NoMemory) }
{
    if MAX_LINE_BYTES < line.len() {
        return Ok(None);
    }
    match read_line(alloc, line) {
        Ok(line) => Ok(Some(line)),
        Err(Unread::Faulty) => Ok(None),
        Err(Unread::NoMemory) => Err(Fault::NoMemory),
    }
}
