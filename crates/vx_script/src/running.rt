ghost use Rattle.std.specs.Prelude.{◌≡◌, ◌≢◌, ◌+◌, ◌<◌, ◌≤◌, length, Ok, Err, None, Some, IfSome, IfOk, IfErr, OnOk, option_map};
ghost use Rattle.std.specs.Io.KnownBytes.{Keeps, prepend_known};
ghost use Rattle.vx_step.specs.declared.workers.TheConstants.{MAX_WORKERS};
ghost use Rattle.vx_grammar.specs.ScriptLines.{said};
ghost use Rattle.vx_lines.specs.Reading.{pending};
ghost use Rattle.vx_lines.specs.declared.input.TheConstants.{MAX_SCRIPT_BYTES};
ghost use Rattle.vx_script.specs.Faults.{IsOwn, IsOfRun};
ghost use Rattle.vx_script.specs.Headers.{Faulty, Bare, Begins, header_end, says_of};
ghost use Rattle.vx_script.specs.Known.{Goes, KeepsSize, IsWithin};
ghost use Rattle.vx_script.specs.Transcript.{Wrote, WroteBare, WroteWorld, body_lines};

use crate::fault::Fault;
use crate::header::Header;
use crate::playing::play;
use crate::reading::{next_line, read_of};
use std::alloc::Global;
use std::io::{Read, Write};
use std::marker::Brand;
use std::sync::Wait;
use std::thread::Threads;
use vx_board::Opened;
use vx_grammar::Line;
use vx_lines::Lines;
use vx_policy::Policy;
use vx_world::Blanks;

/// Runs a script on a world that threads share, whose ticks are worked by 1 to 8 threads: reads it
/// to its end and writes the reply to each of its lines as it is read, then the last line, and,
/// where it is asked for, the record as lines of JSON. A fault ends the run; what was replied
/// before it has been written out. Before the last line, and before the fault of a faulty line, the
/// record is settled, and what was replied is compared with it; where they differ that is the
/// fault. A script of more than 16,777,216 bytes always ends in a fault, and none ends in that of a
/// regions file. The memory of the record and of the edits is never given back: it is for a process
/// that ends behind one run.
pub fn run<T: Threads + Wait + Sync, R: Read, W: Write>(
    rt: &T,
    alloc: Global,
    reader: &mut R,
    writer: &mut W,
    policy: Policy,
    workers: usize,
    json: bool,
) -> Result<(), Fault>
    requires workers { (0 < workers) × (workers ≤ MAX_WORKERS) }
    ensures ok { OnOk result (IfSome (R.remaining reader.old) (λ script.
        Wrote policy json script None (W.contents writer.old) (W.contents writer.new))) }
    ensures err { (fault : Fault) → result ≡ Err fault → IsOwn fault
        → IfSome (R.remaining reader.old) (λ script.
        Wrote policy json script (Some fault) (W.contents writer.old) (W.contents writer.new)) }
    ensures within { OnOk result (IfSome (R.remaining reader.old)
        (λ script. length script ≤ MAX_SCRIPT_BYTES)) }
    ensures file { result ≢ Err Fault.BadRegionFile }
{
    let played = run_script(rt, alloc, reader, writer, policy, workers, json);
    let flushed = writer.flush();
    played?;
    flushed.map_err(|_| Fault::WriteFailed)
}

#[tactic(auto, unfolding(crate::specs::Transcript::MayTell))]
fn run_script<T: Threads + Wait + Sync, R: Read, W: Write>(
    rt: &T,
    alloc: Global,
    reader: &mut R,
    writer: &mut W,
    policy: Policy,
    workers: usize,
    json: bool,
) -> Result<(), Fault>
    requires workers { (0 < workers) × (workers ≤ MAX_WORKERS) }
    ensures ok { OnOk result (IfSome (R.remaining reader.old) (λ script.
        Wrote policy json script None (W.contents writer.old) (W.contents writer.new))) }
    ensures err { (fault : Fault) → result ≡ Err fault → IsOwn fault
        → IfSome (R.remaining reader.old) (λ script.
        Wrote policy json script (Some fault) (W.contents writer.old) (W.contents writer.new)) }
    ensures within { OnOk result (IfSome (R.remaining reader.old)
        (λ script. length script ≤ MAX_SCRIPT_BYTES)) }
    ensures fault { IfErr result IsOfRun }
{
    let mut lines = Lines::new(alloc)?;
    let mut header = Header::new(alloc);
    match read_header(alloc, &mut header, &mut lines, reader, writer)? {
        None => end_header(
            rt, alloc, header, policy, &mut lines, reader, writer, workers, json,
        ),
        Some(first) => {
            let number = lines.number();
            begin(
                rt,
                alloc,
                header,
                policy,
                Some(first),
                number,
                &mut lines,
                reader,
                writer,
                workers,
                json,
            )
        }
    }
}

// Ends a script that has no body: with a world and a player in it, the world is made.
fn end_header<T: Threads + Wait + Sync, R: Read, W: Write>(
    rt: &T,
    alloc: Global,
    header: Header,
    policy: Policy,
    lines: &mut Lines,
    reader: &mut R,
    writer: &mut W,
    workers: usize,
    json: bool,
) -> Result<(), Fault>
    requires workers { (0 < workers) × (workers ≤ MAX_WORKERS) }
    ensures ok { OnOk result (IfSome (prepend_known (pending lines.old) (R.remaining reader.old))
        (λ rest. WroteBare policy json header (lines.old.number + 1) None
        (W.contents writer.old) (W.contents writer.new))) }
    ensures err { (fault : Fault) → result ≡ Err fault → IsOwn fault
        → IfSome (prepend_known (pending lines.old) (R.remaining reader.old))
        (λ rest. WroteBare policy json header (lines.old.number + 1) (Some fault)
        (W.contents writer.old) (W.contents writer.new)) }
    ensures fault { IfErr result IsOfRun }
{
    if !header.is_peopled() {
        return Ok(());
    }
    let number = lines.number() + 1;
    begin(
        rt, alloc, header, policy, None, number, lines, reader, writer, workers, json,
    )
}

// Makes the world at the line of that number, and plays the body, if there is one.
fn begin<T: Threads + Wait + Sync, R: Read, W: Write>(
    rt: &T,
    alloc: Global,
    header: Header,
    policy: Policy,
    first: Option<Line>,
    number: u32,
    lines: &mut Lines,
    reader: &mut R,
    writer: &mut W,
    workers: usize,
    json: bool,
) -> Result<(), Fault>
    requires workers { (0 < workers) × (workers ≤ MAX_WORKERS) }
    requires number { IfSome first (λ _. number ≡ lines.old.number) }
    ensures ok { OnOk result (IfSome (prepend_known (pending lines.old) (R.remaining reader.old))
        (λ rest. WroteWorld policy json header number (body_lines (option_map said first) rest) None
        (W.contents writer.old) (W.contents writer.new))) }
    ensures err { (fault : Fault) → result ≡ Err fault → IsOwn fault
        → IfSome (prepend_known (pending lines.old) (R.remaining reader.old))
        (λ rest. WroteWorld policy json header number (body_lines (option_map said first) rest)
        (Some fault) (W.contents writer.old) (W.contents writer.new)) }
    ensures within { OnOk result (IfSome first (λ _. IsWithin lines.old (R.remaining reader.old))) }
    ensures fault { IfErr result IsOfRun }
{
    let opening = header.into_opening(policy, number)?;
    let blanks = Blanks::new(&opening);
    play::<Brand, Brand, T, R, W>(
        rt,
        alloc,
        opening,
        blanks,
        Opened::new(),
        first,
        number,
        lines,
        reader,
        writer,
        workers,
        json,
    )
}

// Reads the header, and answers the first line of the body, if there is one.
fn read_header<R: Read, W: Write>(
    alloc: Global,
    header: &mut Header,
    lines: &mut Lines,
    reader: &mut R,
    writer: &mut W,
) -> Result<Option<Line>, Fault>
    ensures ended { result ≡ Ok None
        → IfSome (prepend_known (pending lines.old) (R.remaining reader.old))
        (λ bytes. header_end header.old (lines.old.number + 1) (says_of bytes)
        ≡ Bare header.new (lines.new.number + 1)) }
    ensures first { IfOk result (λ first. IfSome first (λ line. Goes
        (prepend_known (pending lines.old) (R.remaining reader.old))
        (prepend_known (pending lines.new) (R.remaining reader.new))
        (λ bytes rest. header_end header.old (lines.old.number + 1) (says_of bytes)
        ≡ Begins header.new lines.new.number (said line) (says_of rest)))) }
    ensures written { IfOk result (λ _. Keeps (W.contents writer.old) (W.contents writer.new)) }
    ensures err { (fault : Fault) → result ≡ Err fault → IsOwn fault
        → Keeps (W.contents writer.old) (W.contents writer.new)
        × IfSome (prepend_known (pending lines.old) (R.remaining reader.old))
        (λ bytes. header_end header.old (lines.old.number + 1) (says_of bytes) ≡ Faulty fault) }
    ensures size { IfOk result (λ _.
        KeepsSize lines.old (R.remaining reader.old) lines.new (R.remaining reader.new)) }
    ensures within { result ≡ Ok None → IsWithin lines.old (R.remaining reader.old) }
    ensures fault { IfErr result IsOfRun }
{
    'header_lines: while next_line(lines, reader, writer)? {
        let line = read_of(alloc, lines.line())?;
        let first = header.take_line(alloc, line, lines.number())?;
        if first.is_some() {
            return Ok(first);
        }
    }
    Ok(None)
}
