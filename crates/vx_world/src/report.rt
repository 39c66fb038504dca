ghost use Rattle.std.specs.Prelude.{◌≡◌, vec_len};

use vx_policy::Version;
use vx_record::Chronicle;
use vx_sector::Entry;

/// The record of a world that was settled: its chronicle, the open window of each sector in order
/// of their numbers, and the version that judges these.
#[derive(Drop)]
pub struct Report {
    pub chronicle: Chronicle,
    pub windows: Vec<Vec<Entry>>,
    pub version: Version,
    pub(crate) calls: u64,
}

impl Report {
    /// How many ticks there were.
    pub fn ticks(&self) -> u64
        ensures { result ≡ vec_len self.now.chronicle.ticks }
    {
        self.chronicle.ticks.len() as u64
    }

    /// How many calls were recorded, those of the open windows too.
    pub fn calls(&self) -> u64
        ensures { result ≡ self.now.calls }
    {
        self.calls
    }
}
