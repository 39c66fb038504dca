//! The end of a session.
ghost use Rattle.std.specs.Prelude.{◌≡◌, ◌≤◌, List, map, IfOk, IfErr};
ghost use Rattle.vx_record.specs.Archives.{calls_on};
ghost use Rattle.vx_record.specs.Records.{chronicle_in};
ghost use Rattle.vx_sector.specs.Windows.{most_entries};
ghost use Rattle.vx_windows.specs.Sectors.{entries_in};
ghost use Rattle.vx_audit.specs.Audits.{IsGameOf, record_in};
ghost use Rattle.vx_audit.specs.Deeds.{DeedData};
ghost use Rattle.vx_audit.specs.Records.{IsRecord};
ghost use Rattle.vx_session.specs.Sessions.{IsOf};

use crate::explaining::count_of;
use crate::player::passes_of;
use crate::session::Session;
use crate::session_error::SessionError;
use std::alloc::Global;
use vx_audit::follow;
use vx_keeper::Places;
use vx_sector::MAX_ENTRIES;
use vx_world::{Report, Seats};

impl<A: Places, B: Seats> Session<A, B> {
    /// Ends the session, and hands out the record of its world. Whatever deeds it was, they are a
    /// game by the one-threaded rules, with the answers that were told, and with the ticks and
    /// calls of the record; else it tells where they differ.
    pub fn finish(self, alloc: Global) -> Result<Report, SessionError>
        ensures game { IfOk result (λ report. (deeds : List DeedData) → IsOf deeds self
            → IsGameOf (record_in report.chronicle report.windows.items report.version) deeds) }
        ensures sound { IfOk result (λ report.
            IsRecord (record_in report.chronicle report.windows.items report.version)) }
        ensures chronicle { IfOk result (λ report.
            chronicle_in report.chronicle ≡ self.keeper.chronicle) }
        ensures calls { IfOk result (λ report. report.calls
            ≡ calls_on (chronicle_in report.chronicle).ticks
            (map entries_in report.windows.items)) }
    {
        let (world, keeper, players, last, marks) = self.into_parts();
        let passes = passes_of(alloc, players)?;
        keeper.soundness();
        keeper.opening().soundness();
        let mut world = world;
        world.catch_up(alloc, &keeper)?;
        let report = match world.lift().finish(alloc, keeper, passes) {
            Ok(report) => report,
            Err(unsettled) => return Err(SessionError::from(unsettled.error)),
        };
        if MAX_ENTRIES < report.calls() || count_of(&last) < report.version.edits {
            return Err(SessionError::elsewhere());
        }
        match follow(
            alloc,
            &report.chronicle,
            &report.windows,
            &report.version,
            &marks,
        )? {
            None => Ok(report),
            Some(difference) => Err(SessionError::Differs {
                seat: difference.seat,
                sector: difference.sector,
            }),
        }
    }
}
