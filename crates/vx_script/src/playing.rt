//! A script whose world is made: the lines of its body, played in a session.
ghost use Rattle.std.specs.Prelude.{◌≡◌, ℕ, ◌+◌, true, false, ◌*◌, ◌<◌, ◌≤◌, ◌∷◌, [], length, map, Ok, Err, None, Some, IfSome, IfOk, IfErr, OnOk, option_map};
ghost use Rattle.std.specs.Io.KnownBytes.{prepend_known};
ghost use Rattle.vx_step.specs.declared.workers.TheConstants.{MAX_WORKERS};
ghost use Rattle.vx_grammar.specs.ScriptLines.{said};
ghost use Rattle.vx_lines.specs.Reading.{pending};
ghost use Rattle.vx_audit.specs.Audits.{record_in};
ghost use Rattle.vx_session.specs.Sessions.{IsOf, names_of, opening_of};
ghost use Rattle.vx_record.specs.Archives.{calls_on};
ghost use Rattle.vx_record.specs.Records.{chronicle_in};
ghost use Rattle.vx_windows.specs.Sectors.{entries_in};
ghost use Rattle.vx_script.specs.Faults.{IsOwn, IsOfRun};
ghost use Rattle.vx_script.specs.Headers.{says_of};
ghost use Rattle.vx_script.specs.Known.{IsWithin};
ghost use Rattle.vx_script.specs.Sessions.{HasEnded, StoppedAt, EndsWith, IsPlayable};
ghost use Rattle.vx_script.specs.Stages.{Outside, AreSeated, is_inside, stage_in};
ghost use Rattle.vx_script.specs.Transcript.{WroteBody, body_lines};

use crate::body::take_line;
use crate::ending::write_end;
use crate::fault::Fault;
use crate::reading::{next_line, read_of};
use crate::stage::Stage;
use std::alloc::Global;
use std::io::{Read, Write};
use std::mem;
use std::sync::Wait;
use std::thread::Threads;
use vx_board::{Desk, Opened};
use vx_grammar::Line;
use vx_keeper::Places;
use vx_lines::Lines;
use vx_record::Opening;
use vx_session::Session;
use vx_world::{Blanks, Report, Seats};

// A session's keeper sees the desk by one view, and the session answers `explain` by another.
const VIEWS: usize = 2;

/// Plays the body of a script in a world that opens so: replies to its lines, settles the record,
/// and writes the last line. A body that stops at a faulty line is settled too, so that what was
/// replied before is known to be right. The types are named by the blanks and the book of edits.
pub fn play<
    A: Places + Send + Sync,
    B: Seats + Send + Sync,
    T: Threads + Wait + Sync,
    R: Read,
    W: Write,
>(
    rt: &T,
    alloc: Global,
    opening: Opening,
    blanks: Blanks,
    edits: Opened,
    first: Option<Line>,
    number: u32,
    lines: &mut Lines,
    reader: &mut R,
    writer: &mut W,
    workers: usize,
    json: bool,
) -> Result<(), Fault>
    requires places { (blanks.places.name ≡ A.name) × (blanks.places.parts ≡ A.parts) }
    requires seats { (blanks.seats.name ≡ B.name) × (blanks.seats.parts ≡ B.parts) }
    requires marks { blanks.marks ≡ A.book }
    requires sectors { (length opening.terrain.sectors ≡ A.all) × (A.parts ≡ A.all + B.all) }
    requires names { (length opening.names ≡ B.all) × (B.parts ≡ 2 * B.all) }
    requires first { opening.policy ≡ A.first }
    requires edits { edits ≡ A.edits }
    requires workers { (0 < workers) × (workers ≤ MAX_WORKERS) }
    requires number { IfSome first (λ _. number ≡ lines.old.number) }
    ensures ok { OnOk result (IfSome (prepend_known (pending lines.old) (R.remaining reader.old))
        (λ rest. WroteBody opening json number (body_lines (option_map said first) rest)
        None (W.contents writer.old) (W.contents writer.new))) }
    ensures err { (fault : Fault) → result ≡ Err fault → IsOwn fault
        → IfSome (prepend_known (pending lines.old) (R.remaining reader.old))
        (λ rest. WroteBody opening json number (body_lines (option_map said first) rest)
        (Some fault) (W.contents writer.old) (W.contents writer.new)) }
    ensures within { OnOk result (IfSome first (λ _. IsWithin lines.old (R.remaining reader.old))) }
    ensures fault { IfErr result IsOfRun }
{
    let mut desk = Desk::new(rt, alloc, opening.policy().try_clone()?, edits, VIEWS)?;
    let view = desk.first_view();
    let session = Session::<A, B>::begin(alloc, opening, view, blanks, workers)?;
    let played = play_at(
        rt, alloc, &desk, session, first, number, lines, reader, writer, json,
    );
    // The process ends next, and takes back its memory at once (docs/DECISIONS.md).
    mem::forget(desk);
    played
}

// Plays the body in a session in which nothing was done yet, and in which alone its desk is edited.
fn play_at<
    A: Places + Send + Sync,
    B: Seats + Send + Sync,
    T: Threads + Wait + Sync,
    R: Read,
    W: Write,
>(
    rt: &T,
    alloc: Global,
    desk: &Desk<A, &T>,
    mut session: Session<A, B>,
    first: Option<Line>,
    number: u32,
    lines: &mut Lines,
    reader: &mut R,
    writer: &mut W,
    json: bool,
) -> Result<(), Fault>
    requires nothing { IsOf [] session }
    requires first { (opening_of session).policy ≡ A.first }
    requires number { IfSome first (λ _. number ≡ lines.old.number) }
    ensures ok { OnOk result (IfSome (prepend_known (pending lines.old) (R.remaining reader.old))
        (λ rest. WroteBody (opening_of session) json number
        (body_lines (option_map said first) rest)
        None (W.contents writer.old) (W.contents writer.new))) }
    ensures err { (fault : Fault) → result ≡ Err fault → IsOwn fault
        → IfSome (prepend_known (pending lines.old) (R.remaining reader.old))
        (λ rest. WroteBody (opening_of session) json number
        (body_lines (option_map said first) rest)
        (Some fault) (W.contents writer.old) (W.contents writer.new)) }
    ensures within { OnOk result (IfSome first (λ _. IsWithin lines.old (R.remaining reader.old))) }
    ensures fault { IfErr result IsOfRun }
{
    let read = read_body(
        rt,
        alloc,
        desk,
        &mut session,
        first,
        number,
        lines,
        reader,
        writer,
    );
    let report = settle(alloc, session, read)?;
    let written = write_end(alloc, &report, json, writer);
    // The process ends next, as in `play`.
    mem::forget(report);
    written
}

// Settles a session whose lines were read to the end or up to a faulty one.
fn settle<A: Places, B: Seats>(
    alloc: Global,
    session: Session<A, B>,
    read: Result<(), Fault>,
) -> Result<Report, Fault>
    ensures ended { IfOk result (λ report. (read ≡ Ok tt)
        × EndsWith session
        (record_in report.chronicle report.windows.items report.version)
        × (report.calls ≡ calls_on (chronicle_in report.chronicle).ticks
        (map entries_in report.windows.items))) }
    ensures err { (fault : Fault) → result ≡ Err fault → IsOwn fault
        → (read ≡ Err fault)
        × ((number : ℕ) → fault ≡ Fault.Syntax number → IsPlayable session) }
    ensures fault { IfErr read IsOfRun → IfErr result IsOfRun }
{
    match read {
        Ok(()) => Ok(session.finish(alloc)?),
        Err(Fault::Syntax(number)) => {
            session.finish(alloc)?;
            Err(Fault::Syntax(number))
        }
        Err(fault) => Err(fault),
    }
}

// Reads the lines of the body, of which the first says this, if there is one, and writes the
// replies to them.
fn read_body<
    A: Places + Send + Sync,
    B: Seats + Send + Sync,
    T: Threads + Wait + Sync,
    R: Read,
    W: Write,
>(
    rt: &T,
    alloc: Global,
    desk: &Desk<A, &T>,
    session: &mut Session<A, B>,
    first: Option<Line>,
    number: u32,
    lines: &mut Lines,
    reader: &mut R,
    writer: &mut W,
) -> Result<(), Fault>
    requires { IfSome first (λ _. number ≡ lines.old.number) }
    ensures done { OnOk result (IfSome (prepend_known (pending lines.old) (R.remaining reader.old))
        (λ rest. HasEnded A.first session.old session.new Outside
        (body_lines (option_map said first) rest) (W.contents writer.old) (W.contents writer.new))) }
    ensures stopped { (fault : Fault) → result ≡ Err fault → IsOwn fault
        → IfSome (prepend_known (pending lines.old) (R.remaining reader.old))
        (λ rest. StoppedAt A.first session.old session.new Outside number
        (body_lines (option_map said first) rest) (W.contents writer.old) (W.contents writer.new)
        fault) }
    ensures within { OnOk result (IfSome first (λ _. IsWithin lines.old (R.remaining reader.old))) }
    ensures fault { IfErr result IsOfRun }
{
    match first {
        None => Ok(()),
        Some(first) => read_from(rt, alloc, desk, session, first, lines, reader, writer),
    }
}

// Takes the first line of the body, and reads the lines behind it.
fn read_from<
    A: Places + Send + Sync,
    B: Seats + Send + Sync,
    T: Threads + Wait + Sync,
    R: Read,
    W: Write,
>(
    rt: &T,
    alloc: Global,
    desk: &Desk<A, &T>,
    session: &mut Session<A, B>,
    first: Line,
    lines: &mut Lines,
    reader: &mut R,
    writer: &mut W,
) -> Result<(), Fault>
    ensures done { OnOk result (IfSome (prepend_known (pending lines.old) (R.remaining reader.old))
        (λ rest. HasEnded A.first session.old session.new Outside (Some (said first) ∷ says_of rest)
        (W.contents writer.old) (W.contents writer.new))) }
    ensures stopped { (fault : Fault) → result ≡ Err fault → IsOwn fault
        → IfSome (prepend_known (pending lines.old) (R.remaining reader.old))
        (λ rest. StoppedAt A.first session.old session.new Outside lines.old.number
        (Some (said first) ∷ says_of rest) (W.contents writer.old) (W.contents writer.new)
        fault) }
    ensures within { OnOk result (IsWithin lines.old (R.remaining reader.old)) }
    ensures fault { IfErr result IsOfRun }
{
    let stage = take_line(
        rt,
        alloc,
        desk,
        session,
        Stage::Outside,
        Some(first),
        lines.number(),
        writer,
    )?;
    read_lines(rt, alloc, desk, session, stage, lines, reader, writer)
}

// Reads lines to the end of the script, of which the first stands at this stage, and writes the
// replies to them.
fn read_lines<
    A: Places + Send + Sync,
    B: Seats + Send + Sync,
    T: Threads + Wait + Sync,
    R: Read,
    W: Write,
>(
    rt: &T,
    alloc: Global,
    desk: &Desk<A, &T>,
    session: &mut Session<A, B>,
    mut stage: Stage,
    lines: &mut Lines,
    reader: &mut R,
    writer: &mut W,
) -> Result<(), Fault>
    requires { AreSeated (names_of session.old) (stage_in stage) }
    ensures done { OnOk result (IfSome (prepend_known (pending lines.old) (R.remaining reader.old))
        (λ rest. HasEnded A.first session.old session.new (stage_in stage) (says_of rest)
        (W.contents writer.old) (W.contents writer.new))) }
    ensures stopped { (fault : Fault) → result ≡ Err fault → IsOwn fault
        → IfSome (prepend_known (pending lines.old) (R.remaining reader.old))
        (λ rest. StoppedAt A.first session.old session.new (stage_in stage) (lines.old.number + 1)
        (says_of rest) (W.contents writer.old) (W.contents writer.new) fault) }
    ensures within { OnOk result (IsWithin lines.old (R.remaining reader.old)) }
    ensures fault { IfErr result IsOfRun }
{
    'body_lines: while next_line(lines, reader, writer)? {
        let line = read_of(alloc, lines.line())?;
        stage = take_line(
            rt,
            alloc,
            desk,
            session,
            stage,
            line,
            lines.number(),
            writer,
        )?;
    }
    end_at(&stage, lines.number())
}

// Whether the lines may end at this stage; the last one is faulty where they end in a block.
fn end_at(stage: &Stage, number: u32) -> Result<(), Fault>
    ensures closed { OnOk result (is_inside (stage_in stage.now) ≡ false) }
    ensures inside { IfErr result (λ fault. (fault ≡ Fault.Syntax number)
        × (is_inside (stage_in stage.now) ≡ true)) }
{
    match stage {
        Stage::Outside => Ok(()),
        Stage::Inside(_) => Err(Fault::Syntax(number)),
    }
}
