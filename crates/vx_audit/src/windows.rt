ghost use Rattle.std.specs.Prelude.{◌≡◌, true, length, map};
ghost use Rattle.vx_sector.specs.SectorData.{entry_of};
ghost use Rattle.vx_windows.specs.Sectors.{entries_in};
ghost use Rattle.vx_record.specs.Records.{tick_in};
ghost use Rattle.vx_audit.specs.Shown.{shown};
ghost use Rattle.vx_audit.specs.Walks.{AreDone, windows_in};

use vx_record::{ClosedWindows, Tick};
use vx_sector::Entry;

/// The windows of a record that come first: those that its next tick closes, or the open ones.
#[derive(Clone, Copy)]
pub(crate) enum Windows<'a> {
    Closed(&'a ClosedWindows),
    Open(&'a [Vec<Entry>]),
}

impl<'a> Windows<'a> {
    /// Those that come first, where these ticks are left and these windows are open in the end.
    pub(crate) fn first(ticks: &'a [Tick], pending: &'a [Vec<Entry>]) -> Windows<'a>
        ensures { shown result
            ≡ windows_in (map tick_in ticks.now) (map entries_in pending.now) }
    {
        match ticks {
            [tick, ..] => Windows::Closed(&tick.windows),
            [] => Windows::Open(pending),
        }
    }

    /// How many there are.
    pub(crate) fn count(&self) -> usize
        ensures { result ≡ length (shown self.now) }
    {
        match *self {
            Windows::Closed(windows) => windows.count(),
            Windows::Open(windows) => windows.len(),
        }
    }

    /// Whether none has an entry; the open ones are not looked at, and may have none either.
    pub(crate) fn is_quiet(&self) -> bool
        ensures { result ≡ true → AreDone (shown self.now) }
    {
        match *self {
            Windows::Closed(windows) => windows.is_quiet(),
            Windows::Open(_) => false,
        }
    }

    /// Puts the entries of each window in the place of its number, where as many places are empty.
    /// Of closed windows it goes to those alone that have entries.
    pub(crate) fn put_into(&self, places: &mut [&'a [Entry]])
        requires as_many { length places.old ≡ length (shown self.now) }
        requires empty { AreDone (map (λ place. map entry_of place.now) places.old) }
        ensures { map (λ place. map entry_of place.now) places.new ≡ shown self.now }
    {
        match *self {
            Windows::Closed(windows) => windows.put_into(places),
            Windows::Open(windows) => put_open(windows, places),
        }
    }
}

// Puts the entries of each open window in the place of its number.
fn put_open<'a>(windows: &'a [Vec<Entry>], places: &mut [&'a [Entry]])
    requires { length places.old ≡ length windows.now }
    ensures { map (λ place. map entry_of place.now) places.new ≡ map entries_in windows.now }
{
    for (at, window) in windows.iter().enumerate() {
        places[at] = window;
    }
}
