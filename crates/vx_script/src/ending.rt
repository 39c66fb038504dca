//! The end of a run: the last line, and the record.
ghost use Rattle.std.specs.Prelude.{◌≡◌, ◌++◌, map, Err, OnOk, IfErr};
ghost use Rattle.std.specs.Io.KnownBytes.{Appends};
ghost use Rattle.vx_audit.specs.Audits.{record_in};
ghost use Rattle.vx_record.specs.Archives.{calls_on};
ghost use Rattle.vx_record.specs.Records.{chronicle_in};
ghost use Rattle.vx_windows.specs.Sectors.{entries_in};
ghost use Rattle.vx_script.specs.Faults.{IsOwn, IsOfRun};
ghost use Rattle.vx_script.specs.Transcript.{done_text, record_lines};

use crate::fault::Fault;
use std::alloc::Global;
use std::io::Write;
use vx_json::write_record;
use vx_world::Report;

/// Writes the last line, and the record where it is asked for.
pub fn write_end<W: Write>(
    alloc: Global,
    report: &Report,
    json: bool,
    writer: &mut W,
) -> Result<(), Fault>
    requires { report.now.calls ≡ calls_on (chronicle_in report.now.chronicle).ticks
        (map entries_in report.now.windows.items) }
    ensures ok { OnOk result (Appends (W.contents writer.old) (W.contents writer.new)
        (let r = record_in report.now.chronicle report.now.windows.items report.now.version in
        done_text r ++ record_lines json r)) }
    ensures own { (fault : Fault) → result ≡ Err fault → IsOwn fault → ⊥ }
    ensures fault { IfErr result IsOfRun }
{
    write_done(report, writer)?;
    write_lines(alloc, report, json, writer)
}

fn write_done<W: Write>(report: &Report, writer: &mut W) -> Result<(), Fault>
    requires { report.now.calls ≡ calls_on (chronicle_in report.now.chronicle).ticks
        (map entries_in report.now.windows.items) }
    ensures ok { OnOk result (Appends (W.contents writer.old) (W.contents writer.new) (done_text
        (record_in report.now.chronicle report.now.windows.items report.now.version))) }
    ensures err { IfErr result (λ fault. fault ≡ Fault.WriteFailed) }
{
    let ticks = report.ticks();
    let calls = report.calls();
    writeln!(writer, "done ticks {ticks} calls {calls}").map_err(|_| Fault::WriteFailed)
}

// Writes the record, where it is asked for.
fn write_lines<W: Write>(
    alloc: Global,
    report: &Report,
    json: bool,
    writer: &mut W,
) -> Result<(), Fault>
    ensures ok { OnOk result (Appends (W.contents writer.old) (W.contents writer.new)
        (record_lines json
        (record_in report.now.chronicle report.now.windows.items report.now.version))) }
    ensures own { (fault : Fault) → result ≡ Err fault → IsOwn fault → ⊥ }
    ensures fault { IfErr result IsOfRun }
{
    if json {
        Ok(write_record(alloc, &report.chronicle, &report.windows, writer)?)
    } else {
        Ok(())
    }
}
