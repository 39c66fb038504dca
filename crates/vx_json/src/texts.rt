//! What the record tells of calls and fates, as plain texts.
ghost use Rattle.std.specs.Prelude.{◌≡◌, IfOk, OnOk, string_bytes};
ghost use Rattle.vx_block.specs.Cell.{IsCell};
ghost use Rattle.vx_json.specs.Commands.{cmd_text};
ghost use Rattle.vx_json.specs.Plain.{IsPlain};
ghost use Rattle.vx_json.specs.Texts.{answer_text, fate_text};
ghost use Rattle.vx_sector.specs.Texts.{reply_text};

use crate::command_words::CommandWords;
use crate::fate_line::FateLine;
use crate::place::Place;
use std::alloc::{AllocError, Global};
use vx_block::Cell;
use vx_geom::Pos;
use vx_sector::{Cmd, Refusal, Reply};
use vx_tick::Fate;

/// The words of a command.
pub fn cmd_text(alloc: Global, cmd: Cmd) -> Result<String, AllocError>
    ensures text { IfOk result (λ text. string_bytes text ≡ cmd_text cmd) }
    ensures plain { IsPlain (cmd_text cmd) }
{
    let words = CommandWords { cmd };
    format!(in alloc; "{words}")
}

/// What became of the move of the piston at p.
pub fn fate_text(alloc: Global, p: Pos, fate: Fate) -> Result<String, AllocError>
    ensures text { IfOk result (λ text. string_bytes text ≡ fate_text p fate) }
    ensures plain { IsPlain (fate_text p fate) }
{
    let piston = Place { pos: p };
    let line = FateLine { piston, fate };
    format!(in alloc; "{line}")
}

/// The line of an answer.
pub fn answer_text(alloc: Global, answer: &Result<Reply, Refusal>) -> Result<String, AllocError>
    ensures text { IfOk result (λ text. string_bytes text ≡ answer_text answer.now) }
    ensures plain { IsPlain (answer_text answer.now) }
{
    match answer {
        Ok(reply) => reply_text(alloc, reply),
        Err(refusal) => format!(in alloc; "{refusal}"),
    }
}

// The line of a reply.
fn reply_text(alloc: Global, reply: &Reply) -> Result<String, AllocError>
    ensures text { IfOk result (λ text. string_bytes text ≡ reply_text reply.now) }
    ensures plain { IsPlain (reply_text reply.now) }
{
    spelling(reply);
    format!(in alloc; "{reply}")
}

// The line of every reply is plain.
fn spelling(reply: &Reply)
    ensures { IsPlain (reply_text reply.now) }
{
    match reply {
        Reply::Seen(seen) => ranges(&seen.cell()),
        Reply::Done(_) => {}
        Reply::Opened(_, _) => {}
    }
}

// The numbers of every cell are in their ranges.
fn ranges(cell: &Cell)
    ensures { IsCell cell.now }
{
    match cell {
        Cell::Dust(level) => {
            let _ = level.value();
        }
        Cell::Repeater(repeater) => {
            let _ = repeater.wait();
        }
        _ => {}
    }
}
