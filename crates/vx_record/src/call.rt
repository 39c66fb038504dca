ghost use Rattle.std.specs.Bool.{Decides};
ghost use Rattle.std.specs.Prelude.{◌≡◌};

use vx_sector::{Cmd, Entry, Refusal, Reply};

/// A call of a player: the command, and the answer that was given.
#[derive(Debug, PartialEq, Eq, Drop)]
pub struct Call {
    pub cmd: Cmd,
    pub answer: Result<Reply, Refusal>,
}

impl Call {
    ghost use Rattle.vx_sector.specs.SectorData.{entry_of};
    ghost use Rattle.vx_record.specs.Calls.{call_in};

    /// Whether the entry records this call.
    pub fn is_in(&self, entry: &Entry) -> bool
        ensures { Decides result (self.now ≡ call_in (entry_of entry.now)) }
    {
        self.cmd == entry.cmd && self.answer == entry.answer
    }
}
