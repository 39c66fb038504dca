//! The record of a world, written line by line.
ghost use Rattle.std.specs.Prelude.{◌≡◌, ◌++◌, [], ◌∷◌, map, OnOk, IfOk, string_bytes};
ghost use Rattle.std.specs.List.{flat_map};
ghost use Rattle.std.specs.Io.KnownBytes.{Appends};
ghost use Rattle.vx_sector.specs.SectorData.{entry_of};
ghost use Rattle.vx_windows.specs.Sectors.{entries_in};
ghost use Rattle.vx_record.specs.Records.{tick_in, chronicle_in};
ghost use Rattle.vx_json.specs.Records.{call_line, fate_line, calls_text, tick_text, record_text};
ghost use Rattle.vx_json.specs.Texts.{line_text};

use crate::call_object::CallObject;
use crate::fate_object::FateObject;
use crate::objects::{call_json, fate_json};
use crate::record_error::RecordError;
use crate::texts::{answer_text, cmd_text, fate_text};
use std::alloc::{AllocError, Global};
use std::io::Write;
use vx_geom::Pos;
use vx_record::{Chronicle, ClosedWindows, Tick};
use vx_sector::Entry;
use vx_tick::Fate;

/// Writes the record of a world as lines of JSON, one for each recorded call and each fate: the
/// ticks of its chronicle in order, in each the calls sector by sector and then the fates, and last
/// the calls of the open windows. Of a record that is not written to its end, some first bytes may
/// be.
pub fn write_record<W: Write>(
    alloc: Global,
    chronicle: &Chronicle,
    windows: &[Vec<Entry>],
    writer: &mut W,
) -> Result<(), RecordError>
    ensures { OnOk result (Appends (W.contents writer.old) (W.contents writer.new)
        (record_text (chronicle_in chronicle.now) (map entries_in windows.now))) }
{
    let ticks = chronicle.ticks.as_slice();
    for tick in ticks {
        write_tick(alloc, tick, writer)?;
    }
    write_windows(alloc, ticks.len() as u64 + 1, windows, writer)
}

// Writes a tick: its calls, and then its fates.
fn write_tick<W: Write>(alloc: Global, tick: &Tick, writer: &mut W) -> Result<(), RecordError>
    ensures { OnOk result (Appends (W.contents writer.old) (W.contents writer.new)
        (tick_text (tick_in tick.now))) }
{
    write_closed(alloc, tick.number, &tick.windows, writer)?;
    write_fates(alloc, tick.number, tick.fates.as_slice(), writer)
}

// Writes the calls of windows that a tick closed, sector by sector, from the first on.
fn write_closed<W: Write>(
    alloc: Global,
    tick: u64,
    windows: &ClosedWindows,
    writer: &mut W,
) -> Result<(), RecordError>
    ensures { OnOk result (Appends (W.contents writer.old) (W.contents writer.new)
        (calls_text tick 0 windows.now)) }
{
    for sector in 0..windows.count() {
        write_window(alloc, tick, sector, windows.window(sector), writer)?;
    }
    Ok(())
}

// Writes the calls of open windows, sector by sector, from the first on.
fn write_windows<W: Write>(
    alloc: Global,
    tick: u64,
    windows: &[Vec<Entry>],
    writer: &mut W,
) -> Result<(), RecordError>
    ensures { OnOk result (Appends (W.contents writer.old) (W.contents writer.new)
        (calls_text tick 0 (map entries_in windows.now))) }
{
    for (sector, window) in windows.iter().enumerate() {
        write_window(alloc, tick, sector, window.as_slice(), writer)?;
    }
    Ok(())
}

// Writes the calls of a sector's window.
fn write_window<W: Write>(
    alloc: Global,
    tick: u64,
    sector: usize,
    window: &[Entry],
    writer: &mut W,
) -> Result<(), RecordError>
    ensures { OnOk result (Appends (W.contents writer.old) (W.contents writer.new)
        (flat_map (call_line tick sector) (map entry_of window.now))) }
{
    for entry in window {
        write_call(alloc, tick, sector, entry, writer)?;
    }
    Ok(())
}

// Writes a call.
fn write_call<W: Write>(
    alloc: Global,
    tick: u64,
    sector: usize,
    entry: &Entry,
    writer: &mut W,
) -> Result<(), RecordError>
    ensures { OnOk result (Appends (W.contents writer.old) (W.contents writer.new)
        (call_line tick sector (entry_of entry.now))) }
{
    let line = call_line(alloc, tick, sector, entry)?;
    writeln!(writer, "{line}").map_err(|_| RecordError::WriteFailed)
}

// The line of a call, without its end.
fn call_line(alloc: Global, tick: u64, sector: usize, entry: &Entry) -> Result<String, AllocError>
    ensures { IfOk result (λ text.
        line_text (string_bytes text) ≡ call_line tick sector (entry_of entry.now)) }
{
    let cmd = cmd_text(alloc, entry.cmd)?;
    let reply = answer_text(alloc, &entry.answer)?;
    let name = entry.seat.name;
    name.spelling();
    let call = CallObject {
        cmd: cmd.as_str(),
        player: name.as_str(),
        reply: reply.as_str(),
        sector,
        tick,
    };
    call_json(alloc, &call)
}

// Writes the fates of a tick.
fn write_fates<W: Write>(
    alloc: Global,
    tick: u64,
    fates: &[(Pos, Fate)],
    writer: &mut W,
) -> Result<(), RecordError>
    ensures { OnOk result (Appends (W.contents writer.old) (W.contents writer.new)
        (flat_map (fate_line tick) fates.now)) }
{
    for (p, fate) in fates {
        write_fate(alloc, tick, *p, *fate, writer)?;
    }
    Ok(())
}

// Writes what became of the move of the piston at p.
fn write_fate<W: Write>(
    alloc: Global,
    tick: u64,
    p: Pos,
    fate: Fate,
    writer: &mut W,
) -> Result<(), RecordError>
    ensures { OnOk result (Appends (W.contents writer.old) (W.contents writer.new)
        (fate_line tick (p, fate))) }
{
    let text = fate_text(alloc, p, fate)?;
    let told = FateObject {
        fate: text.as_str(),
        tick,
    };
    let line = fate_json(alloc, &told)?;
    writeln!(writer, "{line}").map_err(|_| RecordError::WriteFailed)
}
