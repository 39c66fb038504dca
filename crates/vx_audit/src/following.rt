//! Whether the record of a world has a call wherever one was made, where the players' own lists say
//! which.
ghost use Rattle.std.specs.Prelude.{◌≡◌, ◌≤◌, None, List, IfOk};
ghost use Rattle.vx_record.specs.Archives.{calls_on};
ghost use Rattle.vx_sector.specs.Windows.{most_entries};
ghost use Rattle.vx_audit.specs.Audits.{IsGameOf, record_in};
ghost use Rattle.vx_audit.specs.Deeds.{DeedData, edits_in};
ghost use Rattle.vx_audit.specs.Marks.{IsKnownOf, marks_of};
ghost use Rattle.vx_audit.specs.Records.{IsRecord, IsByEdits};

use crate::difference::Difference;
use crate::mark::Mark;
use crate::walk::Walk;
use std::alloc::{AllocError, Global};
use vx_policy::Version;
use vx_record::Chronicle;
use vx_sector::Entry;

/// Where the marks of what was done differ from the record of a world that has ended, if they do.
/// Where they don't, any deeds that have these marks, and of which the record and the players'
/// lists say the same calls, are what the one-threaded game gives. An error says that memory was
/// wanted: a list of the windows and a table of the players in each sector, both made before the
/// first mark is read.
pub fn follow(
    alloc: Global,
    chronicle: &Chronicle,
    windows: &[Vec<Entry>],
    version: &Version,
    marks: &[Mark],
) -> Result<Option<Difference>, AllocError>
    requires record { IsRecord (record_in chronicle.now windows.now version.now) }
    requires few { let r = record_in chronicle.now windows.now version.now in
        calls_on r.chronicle.ticks r.windows ≤ most_entries }
    ensures { IfOk result (λ found. let r = record_in chronicle.now windows.now version.now in
        found ≡ None → (deeds : List DeedData)
        → marks_of r.chronicle.opening.terrain.sizes deeds ≡ marks.now
        → IsByEdits (edits_in deeds) r → IsKnownOf r deeds → IsGameOf r deeds) }
{
    chronicle.opening.soundness();
    let mut walk = Walk::begin(alloc, chronicle, windows, version)?;
    let mut left = marks;
    while !left.is_empty() {
        let Some(others) = walk.go_on(left) else {
            return Ok(Some(Difference::at(left)));
        };
        left = others;
    }
    if walk.is_end() {
        Ok(None)
    } else {
        Ok(Some(Difference::at(left)))
    }
}
