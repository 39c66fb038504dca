ghost use Rattle.std.specs.Bool.{Decides};
ghost use Rattle.std.specs.List.{All};
ghost use Rattle.std.specs.Prelude.{◌≡◌, ◌≤◌, ◌<◌, ◌++◌, ◌∷◌, [], true, length, map, replicate, slice_index, vec_len, IfOk, OnOk};
ghost use Rattle.vx_sector.specs.SectorData.{entry_of};
ghost use Rattle.vx_sector.specs.Windows.{most_entries};
ghost use Rattle.vx_record.specs.Archives.{next_counts};

use crate::call::Call;
use crate::chronicle::Chronicle;
use crate::opening::Opening;
use crate::saying::says;
use crate::tick::Tick;
use std::alloc::{AllocError, Global};
use std::marker::Model;
use vx_sector::{Entry, Sector};

/// The chronicle of a world, and how many entries of each sector are closed in it.
#[derive(Drop)]
pub struct Archive {
    chronicle: Chronicle,
    counts: Vec<u64>,
}

impl Model for Archive {
    ghost use Rattle.std.specs.Prelude.{nat_lt, vec_len, vec_capacity};
    ghost use Rattle.vx_record.specs.Records.{chronicle_in};
    ghost use Rattle.vx_record.specs.Archives.{ArchiveData, IsArchive};

    ghost Value = { ArchiveData };

    ghost view = { λ a. record {
      chronicle = chronicle_in a.chronicle;
      counts = a.counts.items;
      is_roomy = nat_lt (vec_len a.chronicle.ticks) (vec_capacity a.chronicle.ticks);
    } };

    ghost invariant = { λ a. IsArchive (chronicle_in a.chronicle) a.counts.items };
}

impl Archive {
    ghost use Rattle.vx_sector.specs.Windows.{count_of};
    ghost use Rattle.vx_record.specs.Records.{tick_in, chronicle_in};
    ghost use Rattle.vx_record.specs.Archives.{IsArchive, IsNextTick};
    ghost use Rattle.vx_record.specs.Said.{closed_at, said_of};

    /// The archive of a world as it opens, with no tick yet.
    pub fn new(alloc: Global, opening: Opening) -> Result<Archive, AllocError>
        ensures chronicle { IfOk result (λ archive.
            archive.chronicle ≡ record { opening = opening; ticks = [] }) }
        ensures counts { IfOk result (λ archive.
            archive.counts ≡ replicate (length opening.terrain.sectors) 0) }
    {
        let counts = zeros(alloc, opening.terrain().sectors().len())?;
        Ok(Archive {
            chronicle: Chronicle {
                opening,
                ticks: Vec::new(alloc),
            },
            counts,
        })
    }

    /// Makes room for a tick more.
    pub fn reserve(&mut self) -> Result<(), AllocError>
        ensures chronicle { self.new.chronicle ≡ self.old.chronicle }
        ensures counts { self.new.counts ≡ self.old.counts }
        ensures room { OnOk result (self.new.is_roomy ≡ true) }
    {
        self.chronicle.ticks.reserve(1)
    }

    /// Adds the next tick, for which there is room, and counts the entries of its windows. It takes
    /// no memory.
    pub fn add(&mut self, tick: Tick)
        requires room { self.old.is_roomy ≡ true }
        requires next { IsNextTick self.old.chronicle (tick_in tick) }
        requires each { length (tick_in tick).windows ≡ length self.old.counts }
        requires most { All (λ n. n ≤ most_entries)
            (next_counts self.old.counts (tick_in tick).windows) }
        ensures chronicle { self.new.chronicle ≡ record self.old.chronicle {
          ticks = self.old.chronicle.ticks ++ tick_in tick ∷ [];
        } }
        ensures counts { self.new.counts ≡ next_counts self.old.counts (tick_in tick).windows }
    {
        tick.windows.count_into(&mut self.counts);
        self.chronicle.ticks.push_reserved(tick);
    }

    /// What holds of every archive: its chronicle is what the one-threaded rules give, and each
    /// count is the number of that sector's entries in it.
    pub fn soundness(&self)
        ensures { IsArchive self.now.chronicle self.now.counts }
    {
        let _ = &self.counts;
    }

    /// How the world opened.
    pub fn opening(&self) -> &Opening
        ensures { result.now ≡ self.now.chronicle.opening }
    {
        &self.chronicle.opening
    }

    /// The ticks, from the first on.
    pub fn ticks(&self) -> &[Tick]
        ensures { map tick_in result.now ≡ self.now.chronicle.ticks }
    {
        &self.chronicle.ticks
    }

    /// How many entries of each sector are closed, in order of their numbers.
    pub fn counts(&self) -> &[u64]
        ensures { result.now ≡ self.now.counts }
    {
        &self.counts
    }

    /// How many entries of the sector of that number are closed.
    pub fn count(&self, at: usize) -> u64
        requires { at < length self.now.counts }
        ensures value { result ≡ slice_index self.now.counts at }
        ensures counted { result ≡ length (closed_at at self.now.chronicle.ticks) }
    {
        self.counts[at]
    }

    /// Whether as many entries are closed in the sector of that number as it says. Then it counts
    /// all that the record has of it.
    pub fn agrees(&self, at: usize, sector: &Sector) -> bool
        requires { at < length self.now.counts }
        ensures value { Decides result (slice_index self.now.counts at ≡ sector.now.closed) }
        ensures all { result ≡ true → count_of sector.now
            ≡ length (closed_at at self.now.chronicle.ticks ++ sector.now.entries) }
    {
        self.counts[at] == sector.closed()
    }

    /// Whether these are the calls that the record says of the seat in a sector, whose open window
    /// has these entries.
    pub fn says(&self, calls: &[Call], seat: u8, at: usize, window: &[Entry]) -> bool
        ensures { Decides result (calls.now
            ≡ said_of seat at self.now.chronicle.ticks (map entry_of window.now)) }
    {
        says(calls, seat, at, self.ticks(), window)
    }

    /// The chronicle. It takes no memory.
    pub fn into_chronicle(self) -> Chronicle
        ensures { chronicle_in result ≡ self.chronicle }
    {
        self.chronicle
    }
}

// So many zeros.
fn zeros(alloc: Global, count: usize) -> Result<Vec<u64>, AllocError>
    ensures { IfOk result (λ counts. counts.items ≡ replicate count 0) }
{
    let mut counts = Vec::with_capacity(alloc, count)?;
    counts.resize(count, 0)?;
    Ok(counts)
}
