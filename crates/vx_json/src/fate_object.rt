ghost use Rattle.serde_json.specs.Events.{SendsValue};
ghost use Rattle.vx_json.specs.Objects.{fate_data};

use serde::{Described, Serialize, Serializer};

/// A fate as an object of JSON, with the number of its tick.
#[derive(Clone, Copy)]
pub(crate) struct FateObject<'a> {
    pub fate: &'a str,
    pub tick: u64,
}

impl Described for FateObject<'_> {
    ghost writes = { λ told. SendsValue (fate_data told.fate.now told.tick) };
}

impl Serialize for FateObject<'_> {
    fn serialize<S: Serializer>(&self, out: &mut S) -> Result<(), S::Error> {
        out.begin_map(Some(2))?;
        out.key("fate")?;
        out.str(self.fate)?;
        out.key("tick")?;
        self.tick.serialize(out)?;
        out.end_map()
    }
}
