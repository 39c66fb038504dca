ghost use Rattle.std.specs.Prelude.{◌≡◌, ◌==◌, bytes_eq, codes, false, option_map};
ghost use Rattle.std.specs.List.{list_all};
ghost use Rattle.vx_grammar.specs.ScriptLines.{said, is_printable, is_comment, world_line, player_line, set_line, placed_part, look_command, place_command, break_command, turn_command, open_command, put_command, take_command, command_of, as_line, region_line, tick_line, explain_line, together_line, end_line, line_by, line_in, line_of, sizes_of};
ghost use Rattle.vx_base.specs.Unread.{Gives};

use crate::arguments::{action, at_end, byte, height, item, name, part, position};
use crate::edit_reading::read_edit;
use crate::line::Line;
use crate::words::Words;
use std::alloc::Global;
use vx_base::{Unread, is_spelled};
use vx_block::Part;
use vx_geom::{Bounds, Pos};
use vx_sector::Cmd;

/// Reads a line. This is the one table of the lines of a script.
#[tactic(auto, unfolding(crate::specs::ScriptLines::line_of))]
pub fn read_line(alloc: Global, text: &[u8]) -> Result<Line, Unread>
    ensures { Gives said result (line_of text.now) }
{
    if !all_printable(text) {
        return Err(Unread::Faulty);
    }
    if is_comment(text) {
        return Ok(Line::Skipped);
    }
    line_in(alloc, &mut Words::new(text))
}

// Whether all bytes may stand in a line. No byte ends the loop early, so several are tested at
// once.
fn all_printable(text: &[u8]) -> bool
    ensures { result ≡ list_all is_printable text.now }
{
    let mut all = true;
    for byte in text {
        all &= is_printable(*byte);
    }
    all
}

fn is_printable(byte: u8) -> bool
    ensures { result ≡ is_printable byte }
{
    (32 <= byte) & (byte <= 126)
}

fn is_comment(text: &[u8]) -> bool
    ensures { result ≡ is_comment text.now }
{
    match text {
        [first, ..] => *first == b'#',
        [] => false,
    }
}

#[tactic(auto, unfolding(crate::specs::ScriptLines::line_in))]
fn line_in(alloc: Global, words: &mut Words) -> Result<Line, Unread>
    ensures { Gives said result (line_in words.old) }
{
    match words.next() {
        None => Ok(Line::Skipped),
        Some(first) => line_by(alloc, first, words),
    }
}

#[tactic(auto, unfolding(crate::specs::ScriptLines::line_by))]
fn line_by(alloc: Global, first: &[u8], words: &mut Words) -> Result<Line, Unread>
    ensures { Gives said result (line_by first.now words.old) }
{
    if is_spelled(first, b"as") {
        return as_line(words);
    }
    if is_spelled(first, b"region") {
        return region_line(alloc, words);
    }
    other_line(first, words).ok_or(Unread::Faulty)
}

// A line that is no command and no edit. Like those two it is never inlined, since a line is large
// and each call that answers one costs room for it.
#[inline(never)]
#[tactic(auto, unfolding(crate::specs::ScriptLines::line_by))]
fn other_line(first: &[u8], words: &mut Words) -> Option<Line>
    requires no_command { bytes_eq first.now (codes "as") ≡ false }
    requires no_edit { bytes_eq first.now (codes "region") ≡ false }
    ensures { option_map said result ≡ line_by first.now words.old }
{
    if is_spelled(first, b"tick") {
        tick_line(words)
    } else if is_spelled(first, b"set") {
        set_line(words)
    } else if is_spelled(first, b"player") {
        player_line(words)
    } else if is_spelled(first, b"world") {
        world_line(words)
    } else if is_spelled(first, b"explain") {
        explain_line(words)
    } else if is_spelled(first, b"together") {
        together_line(words)
    } else if is_spelled(first, b"end") {
        end_line(words)
    } else {
        None
    }
}

#[inline(never)]
#[tactic(auto, unfolding(crate::specs::ScriptLines::region_line))]
fn region_line(alloc: Global, words: &mut Words) -> Result<Line, Unread>
    ensures { Gives said result (region_line words.old) }
{
    let edit = read_edit(alloc, words)?;
    Ok(Line::Region(edit))
}

#[tactic(auto, unfolding(crate::specs::ScriptLines::tick_line))]
fn tick_line(words: &mut Words) -> Option<Line>
    ensures { option_map said result ≡ tick_line words.old }
{
    at_end(words, Line::Tick)
}

#[tactic(auto, unfolding(crate::specs::ScriptLines::explain_line))]
fn explain_line(words: &mut Words) -> Option<Line>
    ensures { option_map said result ≡ explain_line words.old }
{
    let name = name(words)?;
    let action = action(words)?;
    let p = position(words)?;
    at_end(words, Line::Explain(name, action, p))
}

#[tactic(auto, unfolding(crate::specs::ScriptLines::together_line))]
fn together_line(words: &mut Words) -> Option<Line>
    ensures { option_map said result ≡ together_line words.old }
{
    at_end(words, Line::Together)
}

#[tactic(auto, unfolding(crate::specs::ScriptLines::end_line))]
fn end_line(words: &mut Words) -> Option<Line>
    ensures { option_map said result ≡ end_line words.old }
{
    at_end(words, Line::End)
}

#[tactic(auto, unfolding(crate::specs::ScriptLines::world_line))]
fn world_line(words: &mut Words) -> Option<Line>
    ensures { option_map said result ≡ world_line words.old }
{
    let sx = byte(words)?;
    let sz = byte(words)?;
    let s = byte(words)?;
    let h = height(words)?;
    let bounds = bounds_of(sx, sz, s, h)?;
    at_end(words, Line::World(bounds))
}

#[tactic(auto, unfolding(crate::specs::ScriptLines::player_line))]
fn player_line(words: &mut Words) -> Option<Line>
    ensures { option_map said result ≡ player_line words.old }
{
    let name = name(words)?;
    at_end(words, Line::Player(name))
}

#[tactic(auto, unfolding(crate::specs::ScriptLines::set_line))]
fn set_line(words: &mut Words) -> Option<Line>
    ensures { option_map said result ≡ set_line words.old }
{
    let (p, part) = placed_part(words)?;
    Some(Line::Set(p, part))
}

// Reads a position and a part, which end the line.
#[inline(always)]
#[tactic(auto, unfolding(crate::specs::ScriptLines::placed_part))]
fn placed_part(words: &mut Words) -> Option<(Pos, Part)>
    ensures { result ≡ placed_part words.old }
{
    let p = position(words)?;
    let part = part(words)?;
    at_end(words, (p, part))
}

#[inline(never)]
#[tactic(auto, unfolding(crate::specs::ScriptLines::as_line))]
fn as_line(words: &mut Words) -> Result<Line, Unread>
    ensures { Gives said result (as_line words.old) }
{
    let Some(name) = name(words) else {
        return Err(Unread::Faulty);
    };
    let Some(verb) = words.next() else {
        return Err(Unread::Faulty);
    };
    match command_of(verb, words) {
        Some(cmd) => Ok(Line::As(name, cmd)),
        None => Err(Unread::Faulty),
    }
}

#[tactic(auto, unfolding(crate::specs::ScriptLines::command_of))]
fn command_of(verb: &[u8], words: &mut Words) -> Option<Cmd>
    ensures { result ≡ command_of verb.now words.old }
{
    if is_spelled(verb, b"look") {
        look_command(words)
    } else if is_spelled(verb, b"place") {
        place_command(words)
    } else if is_spelled(verb, b"break") {
        break_command(words)
    } else if is_spelled(verb, b"turn") {
        turn_command(words)
    } else if is_spelled(verb, b"open") {
        open_command(words)
    } else if is_spelled(verb, b"put") {
        put_command(words)
    } else if is_spelled(verb, b"take") {
        take_command(words)
    } else {
        None
    }
}

#[tactic(auto, unfolding(crate::specs::ScriptLines::look_command))]
fn look_command(words: &mut Words) -> Option<Cmd>
    ensures { result ≡ look_command words.old }
{
    let p = position(words)?;
    at_end(words, Cmd::Look(p))
}

#[tactic(auto, unfolding(crate::specs::ScriptLines::place_command))]
fn place_command(words: &mut Words) -> Option<Cmd>
    ensures { result ≡ place_command words.old }
{
    let (p, part) = placed_part(words)?;
    Some(Cmd::Place(p, part))
}

#[tactic(auto, unfolding(crate::specs::ScriptLines::break_command))]
fn break_command(words: &mut Words) -> Option<Cmd>
    ensures { result ≡ break_command words.old }
{
    let p = position(words)?;
    at_end(words, Cmd::Break(p))
}

#[tactic(auto, unfolding(crate::specs::ScriptLines::turn_command))]
fn turn_command(words: &mut Words) -> Option<Cmd>
    ensures { result ≡ turn_command words.old }
{
    let p = position(words)?;
    at_end(words, Cmd::Turn(p))
}

#[tactic(auto, unfolding(crate::specs::ScriptLines::open_command))]
fn open_command(words: &mut Words) -> Option<Cmd>
    ensures { result ≡ open_command words.old }
{
    let p = position(words)?;
    at_end(words, Cmd::OpenChest(p))
}

#[tactic(auto, unfolding(crate::specs::ScriptLines::put_command))]
fn put_command(words: &mut Words) -> Option<Cmd>
    ensures { result ≡ put_command words.old }
{
    let at = position(words)?;
    let slot = byte(words)?;
    let item = item(words)?;
    let count = byte(words)?;
    at_end(
        words,
        Cmd::Put {
            at,
            slot,
            item,
            count,
        },
    )
}

#[tactic(auto, unfolding(crate::specs::ScriptLines::take_command))]
fn take_command(words: &mut Words) -> Option<Cmd>
    ensures { result ≡ take_command words.old }
{
    let at = position(words)?;
    let slot = byte(words)?;
    let count = byte(words)?;
    at_end(words, Cmd::Take { at, slot, count })
}

fn bounds_of(sx: u8, sz: u8, s: u8, h: u8) -> Option<Bounds>
    ensures { result ≡ sizes_of sx sz s h }
{
    Bounds::new(sx, sz, s, h)
}
