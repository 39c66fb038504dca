ghost use Rattle.serde_json.specs.Events.{SendsValue};
ghost use Rattle.vx_json.specs.Objects.{call_data};

use serde::{Described, Serialize, Serializer};

/// A recorded call as an object of JSON: its command, the name of its player, the reply, and the
/// numbers of its sector and its tick.
#[derive(Clone, Copy)]
pub(crate) struct CallObject<'a> {
    pub cmd: &'a str,
    pub player: &'a str,
    pub reply: &'a str,
    pub sector: usize,
    pub tick: u64,
}

impl Described for CallObject<'_> {
    ghost writes = { λ call. SendsValue
        (call_data call.cmd.now call.player.now call.reply.now call.sector call.tick) };
}

impl Serialize for CallObject<'_> {
    fn serialize<S: Serializer>(&self, out: &mut S) -> Result<(), S::Error> {
        out.begin_map(Some(5))?;
        out.key("cmd")?;
        out.str(self.cmd)?;
        out.key("player")?;
        out.str(self.player)?;
        out.key("reply")?;
        out.str(self.reply)?;
        out.key("sector")?;
        self.sector.serialize(out)?;
        out.key("tick")?;
        self.tick.serialize(out)?;
        out.end_map()
    }
}
