//! The lines of the body of a script, and the replies to them.
ghost use Rattle.std.specs.Prelude.{◌≡◌, ◌++◌, ◌∷◌, [], codes, decimal, false, length, Some, OnOk, IfOk, IfErr, IfSome, option_map};
ghost use Rattle.std.specs.Io.KnownBytes.{Keeps, Appends};
ghost use Rattle.vx_grammar.specs.ScriptLines.{said, Act, Region, Tick, Explain};
ghost use Rattle.vx_json.specs.Texts.{answer_text, fate_text, line_text};
ghost use Rattle.vx_policy.specs.Asked.{asked};
ghost use Rattle.vx_play.specs.Plays.{is_named};
ghost use Rattle.vx_session.specs.Sessions.{names_of};
ghost use Rattle.vx_script.specs.Faults.{IsOwn, IsOfRun};
ghost use Rattle.vx_script.specs.Replies.{edit_answer_text, explained_text, fates_text};
ghost use Rattle.vx_script.specs.Sessions.{HasDone};
ghost use Rattle.vx_script.specs.Stages.{Outside, AreSeated, stage_in, stage_after, after_outside, may_stand, stands_outside};

use crate::block::take_inside;
use crate::fault::Fault;
use crate::stage::Stage;
use std::alloc::Global;
use std::io::Write;
use std::sync::Wait;
use std::thread::Threads;
use vx_board::{Desk, Edited};
use vx_decide::Verdict;
use vx_flag::Action;
use vx_geom::Pos;
use vx_grammar::Line;
use vx_json::{FateLine, Place};
use vx_keeper::Places;
use vx_policy::{Edit, EditRefusal};
use vx_region::{Name, Subject};
use vx_sector::{Cmd, Refusal, Reply};
use vx_session::Session;
use vx_tick::Fate;
use vx_world::Seats;

/// Takes the line of that number, which stands in the body at this stage, and writes what is
/// replied. Answers the stage after it.
#[inline(always)]
pub fn take_line<
    A: Places + Send + Sync,
    B: Seats + Send + Sync,
    T: Threads + Wait + Sync,
    W: Write,
>(
    rt: &T,
    alloc: Global,
    desk: &Desk<A, &T>,
    session: &mut Session<A, B>,
    stage: Stage,
    line: Option<Line>,
    number: u32,
    writer: &mut W,
) -> Result<Stage, Fault>
    requires { AreSeated (names_of session.old) (stage_in stage) }
    ensures done { OnOk result (HasDone A.first session.old session.new (stage_in stage)
        (option_map said line ∷ []) (W.contents writer.old) (W.contents writer.new)) }
    ensures stage { IfOk result (λ after. stage_in after
        ≡ stage_after (names_of session.old) (stage_in stage) (option_map said line)) }
    ensures seated { IfOk result (λ after. AreSeated (names_of session.old) (stage_in after)) }
    ensures stopped { (fault : Fault) → result ≡ Err fault → IsOwn fault
        → (fault ≡ Fault.Syntax number)
        × (may_stand (names_of session.old) (stage_in stage) (option_map said line) ≡ false)
        × (session.new ≡ session.old) × Keeps (W.contents writer.old) (W.contents writer.new) }
    ensures faulty { may_stand (names_of session.old) (stage_in stage) (option_map said line) ≡ false
        → result ≡ Err (Fault.Syntax number) }
    ensures fault { IfErr result IsOfRun }
{
    match stage {
        Stage::Outside => take_outside(rt, alloc, desk, session, line, number, writer),
        Stage::Inside(asked) => take_inside(rt, alloc, session, asked, line, number, writer),
    }
}

// Takes a line that stands in no block.
#[inline(always)]
fn take_outside<
    A: Places + Send + Sync,
    B: Seats + Send + Sync,
    T: Threads + Wait + Sync,
    W: Write,
>(
    rt: &T,
    alloc: Global,
    desk: &Desk<A, &T>,
    session: &mut Session<A, B>,
    line: Option<Line>,
    number: u32,
    writer: &mut W,
) -> Result<Stage, Fault>
    ensures done { OnOk result (HasDone A.first session.old session.new Outside
        (option_map said line ∷ []) (W.contents writer.old) (W.contents writer.new)) }
    ensures stage { IfOk result (λ after. stage_in after ≡ after_outside (option_map said line)) }
    ensures seated { IfOk result (λ after. AreSeated (names_of session.old) (stage_in after)) }
    ensures stopped { (fault : Fault) → result ≡ Err fault → IsOwn fault
        → (fault ≡ Fault.Syntax number)
        × (stands_outside (names_of session.old) (option_map said line) ≡ false)
        × (session.new ≡ session.old) × Keeps (W.contents writer.old) (W.contents writer.new) }
    ensures faulty { stands_outside (names_of session.old) (option_map said line) ≡ false
        → result ≡ Err (Fault.Syntax number) }
    ensures fault { IfErr result IsOfRun }
{
    match line {
        Some(Line::Skipped) => Ok(Stage::Outside),
        Some(Line::As(name, cmd)) => {
            command(rt, session, &name, cmd, number, writer)?;
            Ok(Stage::Outside)
        }
        Some(Line::Region(asked)) => {
            edit(rt, alloc, desk, session, asked, writer)?;
            Ok(Stage::Outside)
        }
        Some(Line::Tick) => {
            tick(rt, alloc, desk, session, writer)?;
            Ok(Stage::Outside)
        }
        Some(Line::Explain(name, action, p)) => {
            explain(rt, desk, session, name, action, p, number, writer)?;
            Ok(Stage::Outside)
        }
        Some(Line::Together) => Ok(Stage::Inside(Vec::new(alloc))),
        _ => Err(Fault::Syntax(number)),
    }
}

// Carries out a command of a player, and writes the answer.
fn command<A: Places + Send + Sync, B: Seats + Send + Sync, T: Threads + Wait + Sync, W: Write>(
    rt: &T,
    session: &mut Session<A, B>,
    name: &Name,
    cmd: Cmd,
    number: u32,
    writer: &mut W,
) -> Result<(), Fault>
    ensures done { OnOk result (HasDone A.first session.old session.new Outside
        (Some (Act name.now.text.bytes cmd) ∷ [])
        (W.contents writer.old) (W.contents writer.new)) }
    ensures stopped { (fault : Fault) → result ≡ Err fault → IsOwn fault
        → (fault ≡ Fault.Syntax number)
        × (stands_outside (names_of session.old) (Some (Act name.now.text.bytes cmd)) ≡ false)
        × (session.new ≡ session.old) × Keeps (W.contents writer.old) (W.contents writer.new) }
    ensures faulty { stands_outside (names_of session.old) (Some (Act name.now.text.bytes cmd)) ≡ false
        → result ≡ Err (Fault.Syntax number) }
    ensures fault { IfErr result IsOfRun }
{
    let Some(seat) = session.seat_of(name) else {
        return Err(Fault::Syntax(number));
    };
    let answer = session.command(rt, usize::from(seat), cmd)?;
    write_answer(&answer, writer)
}

/// Writes the answer to a command.
pub fn write_answer<W: Write>(answer: &Result<Reply, Refusal>, writer: &mut W) -> Result<(), Fault>
    ensures ok { OnOk result (Appends (W.contents writer.old) (W.contents writer.new)
        (line_text (answer_text answer.now))) }
    ensures err { IfErr result (λ fault. fault ≡ Fault.WriteFailed) }
{
    if let Some(words) = words_of(answer) {
        return write_words(words, writer);
    }
    match answer {
        Ok(reply) => writeln!(writer, "{reply}").map_err(|_| Fault::WriteFailed),
        Err(refusal) => writeln!(writer, "{refusal}").map_err(|_| Fault::WriteFailed),
    }
}

// The words of an answer, where they are the same each time, as those of most answers are.
fn words_of(answer: &Result<Reply, Refusal>) -> Option<&'static str>
    ensures { IfSome result (λ words. words.now ≡ answer_text answer.now) }
{
    match answer {
        Ok(reply) => reply.words(),
        Err(refusal) => refusal.words(),
    }
}

// Writes a line of these words.
fn write_words<W: Write>(words: &str, writer: &mut W) -> Result<(), Fault>
    ensures ok { OnOk result
        (Appends (W.contents writer.old) (W.contents writer.new) (line_text words.now)) }
    ensures err { IfErr result (λ fault. fault ≡ Fault.WriteFailed) }
{
    writer
        .write_all(words.as_bytes())
        .map_err(|_| Fault::WriteFailed)?;
    writer.write_all(b"\n").map_err(|_| Fault::WriteFailed)
}

// Edits the policy, and writes how many edits are accepted with it, or why it is refused.
fn edit<A: Places + Send + Sync, B: Seats + Send + Sync, T: Threads + Wait + Sync, W: Write>(
    rt: &T,
    alloc: Global,
    desk: &Desk<A, &T>,
    session: &mut Session<A, B>,
    edit: Edit,
    writer: &mut W,
) -> Result<(), Fault>
    ensures done { OnOk result (HasDone A.first session.old session.new Outside
        (Some (Region (asked edit)) ∷ []) (W.contents writer.old) (W.contents writer.new)) }
    ensures own { (fault : Fault) → result ≡ Err fault → IsOwn fault → ⊥ }
    ensures fault { IfErr result IsOfRun }
{
    let answer = session.edit(rt, alloc, desk, edit)?;
    write_edit(answer, writer)
}

fn write_edit<W: Write>(answer: Result<Edited, EditRefusal>, writer: &mut W) -> Result<(), Fault>
    ensures ok { OnOk result (Appends (W.contents writer.old) (W.contents writer.new)
        (line_text (edit_answer_text answer))) }
    ensures err { IfErr result (λ fault. fault ≡ Fault.WriteFailed) }
{
    match answer {
        Ok(edited) => writeln!(writer, "{edited}").map_err(|_| Fault::WriteFailed),
        Err(refusal) => writeln!(writer, "{refusal}").map_err(|_| Fault::WriteFailed),
    }
}

// Makes a tick, and writes its number and the fates of the moves that pistons asked for.
fn tick<A: Places + Send + Sync, B: Seats + Send + Sync, T: Threads + Wait + Sync, W: Write>(
    rt: &T,
    alloc: Global,
    desk: &Desk<A, &T>,
    session: &mut Session<A, B>,
    writer: &mut W,
) -> Result<(), Fault>
    ensures done { OnOk result (HasDone A.first session.old session.new Outside
        (Some Tick ∷ []) (W.contents writer.old) (W.contents writer.new)) }
    ensures own { (fault : Fault) → result ≡ Err fault → IsOwn fault → ⊥ }
    ensures fault { IfErr result IsOfRun }
{
    let fates = session.tick(rt, alloc, desk)?;
    tell(session.ticks(), &fates, writer)
}

// Answers whether a player may do this at a position, and by which rule.
fn explain<A: Places + Send + Sync, B: Seats + Send + Sync, T: Threads + Wait + Sync, W: Write>(
    rt: &T,
    desk: &Desk<A, &T>,
    session: &mut Session<A, B>,
    name: Name,
    action: Action,
    p: Pos,
    number: u32,
    writer: &mut W,
) -> Result<(), Fault>
    ensures done { OnOk result (HasDone A.first session.old session.new Outside
        (Some (Explain name.text.bytes action p) ∷ [])
        (W.contents writer.old) (W.contents writer.new)) }
    ensures stopped { (fault : Fault) → result ≡ Err fault → IsOwn fault
        → (fault ≡ Fault.Syntax number)
        × (stands_outside (names_of session.old) (Some (Explain name.text.bytes action p)) ≡ false)
        × (session.new ≡ session.old) × Keeps (W.contents writer.old) (W.contents writer.new) }
    ensures faulty { stands_outside (names_of session.old) (Some (Explain name.text.bytes action p)) ≡ false
        → result ≡ Err (Fault.Syntax number) }
    ensures fault { IfErr result IsOfRun }
{
    if !has_player(session, &name) {
        return Err(Fault::Syntax(number));
    }
    let (verdict, count) = session.explain(rt, desk, &Subject::Player(name), action, p)?;
    write_verdict(verdict, count, writer)
}

// Whether there is a player of that name.
fn has_player<A: Places, B: Seats>(session: &Session<A, B>, name: &Name) -> bool
    ensures { result ≡ is_named (names_of session.now) name.now.text.bytes }
{
    session.seat_of(name).is_some()
}

fn write_verdict<W: Write>(verdict: Verdict, count: u64, writer: &mut W) -> Result<(), Fault>
    ensures ok { OnOk result (Appends (W.contents writer.old) (W.contents writer.new)
        (line_text (explained_text verdict count))) }
    ensures err { IfErr result (λ fault. fault ≡ Fault.WriteFailed) }
{
    match verdict {
        Verdict::Permit(rule) => writeln!(writer, "permit {rule} edits {count}").map_err(
            |_| Fault::WriteFailed,
        ),
        Verdict::Deny(rule) => writeln!(writer, "deny {rule} edits {count}").map_err(
            |_| Fault::WriteFailed,
        ),
    }
}

// Writes the number of a tick and the fates of its moves.
fn tell<W: Write>(tick: u64, fates: &[(Pos, Fate)], writer: &mut W) -> Result<(), Fault>
    ensures ok { OnOk result (Appends (W.contents writer.old) (W.contents writer.new)
        (line_text (codes "tick " ++ decimal tick) ++ fates_text fates.now)) }
    ensures err { IfErr result (λ fault. fault ≡ Fault.WriteFailed) }
{
    writeln!(writer, "tick {tick}").map_err(|_| Fault::WriteFailed)?;
    write_fates(fates, writer)
}

fn write_fates<W: Write>(fates: &[(Pos, Fate)], writer: &mut W) -> Result<(), Fault>
    ensures ok { OnOk result
        (Appends (W.contents writer.old) (W.contents writer.new) (fates_text fates.now)) }
    ensures err { IfErr result (λ fault. fault ≡ Fault.WriteFailed) }
{
    for (p, fate) in fates {
        write_fate(*p, *fate, writer)?;
    }
    Ok(())
}

// Writes what became of the move of the piston at p.
fn write_fate<W: Write>(p: Pos, fate: Fate, writer: &mut W) -> Result<(), Fault>
    ensures ok { OnOk result
        (Appends (W.contents writer.old) (W.contents writer.new) (line_text (fate_text p fate))) }
    ensures err { IfErr result (λ fault. fault ≡ Fault.WriteFailed) }
{
    let piston = Place { pos: p };
    let line = FateLine { piston, fate };
    writeln!(writer, "{line}").map_err(|_| Fault::WriteFailed)
}
