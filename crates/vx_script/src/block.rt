//! The lines of a block, and what is replied to them in the end.
ghost use Rattle.std.specs.Prelude.{◌≡◌, ◌∷◌, ◌<◌, [], true, false, length, Some, OnOk, IfOk, IfErr, option_map};
ghost use Rattle.std.specs.Io.KnownBytes.{Keeps, Appends};
ghost use Rattle.std.specs.List.{All};
ghost use Rattle.vx_grammar.specs.ScriptLines.{said, Act, End};
ghost use Rattle.vx_session.specs.Sessions.{names_of};
ghost use Rattle.vx_script.specs.Faults.{IsOwn, IsOfRun};
ghost use Rattle.vx_script.specs.Replies.{answers_text};
ghost use Rattle.vx_script.specs.Sessions.{HasDone};
ghost use Rattle.vx_script.specs.Stages.{Inside, AreSeated, stage_in, after_inside, stands_inside};

use crate::body::write_answer;
use crate::fault::Fault;
use crate::stage::{MOST_REQUESTS, Stage};
use std::alloc::Global;
use std::io::Write;
use std::sync::Wait;
use std::thread::Threads;
use vx_grammar::Line;
use vx_keeper::Places;
use vx_region::Name;
use vx_sector::{Cmd, Refusal, Reply};
use vx_session::{Request, Session};
use vx_world::Seats;

/// Takes the line of that number in a block that has asked for so much, and answers the stage after
/// it. At the end of the block all of it is carried out, and its answers are written.
pub fn take_inside<
    A: Places + Send + Sync,
    B: Seats + Send + Sync,
    T: Threads + Wait + Sync,
    W: Write,
>(
    rt: &T,
    alloc: Global,
    session: &mut Session<A, B>,
    asked: Vec<Request>,
    line: Option<Line>,
    number: u32,
    writer: &mut W,
) -> Result<Stage, Fault>
    requires { AreSeated (names_of session.old) (Inside asked.items) }
    ensures done { OnOk result (HasDone A.first session.old session.new (Inside asked.items)
        (option_map said line ∷ []) (W.contents writer.old) (W.contents writer.new)) }
    ensures stage { IfOk result (λ after. stage_in after
        ≡ after_inside (names_of session.old) asked.items (option_map said line)) }
    ensures seated { IfOk result (λ after. AreSeated (names_of session.old) (stage_in after)) }
    ensures stopped { (fault : Fault) → result ≡ Err fault → IsOwn fault
        → (fault ≡ Fault.Syntax number)
        × (stands_inside (names_of session.old) asked.items (option_map said line) ≡ false)
        × (session.new ≡ session.old) × Keeps (W.contents writer.old) (W.contents writer.new) }
    ensures faulty { stands_inside (names_of session.old) asked.items (option_map said line) ≡ false
        → result ≡ Err (Fault.Syntax number) }
    ensures fault { IfErr result IsOfRun }
{
    match line {
        Some(Line::Skipped) => Ok(Stage::Inside(asked)),
        Some(Line::As(name, cmd)) => ask(session, asked, &name, cmd, number),
        Some(Line::End) => {
            carry_out(rt, alloc, session, &asked, writer)?;
            Ok(Stage::Outside)
        }
        // An edit owns memory, and is let go in an arm of its own.
        Some(Line::Region(_edit)) => Err(Fault::Syntax(number)),
        _ => Err(Fault::Syntax(number)),
    }
}

// Asks for one command more.
fn ask<A: Places, B: Seats>(
    session: &Session<A, B>,
    mut asked: Vec<Request>,
    name: &Name,
    cmd: Cmd,
    number: u32,
) -> Result<Stage, Fault>
    requires { AreSeated (names_of session.now) (Inside asked.items) }
    ensures stage { IfOk result (λ after. stage_in after ≡ after_inside (names_of session.now)
        asked.items (Some (Act name.now.text.bytes cmd))) }
    ensures stands { OnOk result (stands_inside (names_of session.now) asked.items
        (Some (Act name.now.text.bytes cmd)) ≡ true) }
    ensures seated { IfOk result (λ after. AreSeated (names_of session.now) (stage_in after)) }
    ensures stopped { (fault : Fault) → result ≡ Err fault → IsOwn fault
        → (fault ≡ Fault.Syntax number) × (stands_inside (names_of session.now) asked.items
        (Some (Act name.now.text.bytes cmd)) ≡ false) }
    ensures faulty { stands_inside (names_of session.now) asked.items
        (Some (Act name.now.text.bytes cmd)) ≡ false → result ≡ Err (Fault.Syntax number) }
    ensures fault { IfErr result IsOfRun }
{
    let Some(seat) = session.seat_of(name) else {
        return Err(Fault::Syntax(number));
    };
    if MOST_REQUESTS <= asked.len() {
        return Err(Fault::Syntax(number));
    }
    asked.reserve(1)?;
    asked.push_reserved(Request { seat, cmd });
    Ok(Stage::Inside(asked))
}

// Has the players do what the block asks for, and writes the answers in the order of its lines.
fn carry_out<A: Places + Send + Sync, B: Seats + Send + Sync, T: Threads + Wait + Sync, W: Write>(
    rt: &T,
    alloc: Global,
    session: &mut Session<A, B>,
    asked: &[Request],
    writer: &mut W,
) -> Result<(), Fault>
    requires { All (λ request. request.seat < length (names_of session.old)) asked.now }
    ensures done { OnOk result (HasDone A.first session.old session.new (Inside asked.now)
        (Some End ∷ []) (W.contents writer.old) (W.contents writer.new)) }
    ensures own { (fault : Fault) → result ≡ Err fault → IsOwn fault → ⊥ }
    ensures fault { IfErr result IsOfRun }
{
    let answers = session.together(rt, alloc, asked)?;
    write_answers(&answers, writer)
}

fn write_answers<W: Write>(answers: &[Result<Reply, Refusal>], writer: &mut W) -> Result<(), Fault>
    ensures ok { OnOk result
        (Appends (W.contents writer.old) (W.contents writer.new) (answers_text answers.now)) }
    ensures err { IfErr result (λ fault. fault ≡ Fault.WriteFailed) }
{
    for answer in answers {
        write_answer(answer, writer)?;
    }
    Ok(())
}
