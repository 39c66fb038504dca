ghost use Rattle.std.specs.List.{All};
ghost use Rattle.std.specs.Prelude.{◌≡◌, ℕ, ◌≤◌, true, map, length, replicate, slice_index_or, vec_capacity, []};
ghost use Rattle.vx_sector.specs.SectorData.{entry_of};
ghost use Rattle.vx_sector.specs.Windows.{most_entries};
ghost use Rattle.vx_windows.specs.Sectors.{entries_in};
ghost use Rattle.vx_record.specs.Archives.{next_counts};
ghost use Rattle.vx_record.specs.Kept.{busy_count, windows_kept, AreInOrder};

use crate::kept_window::KeptWindow;
use std::alloc::Global;
use std::marker::Model;
use vx_sector::Entry;

/// The records of the windows that a tick closes, one for each sector, in order. Only those that
/// have entries are kept, so that a tick costs the memory of what was recorded in it, and none for
/// the size of its world.
#[derive(Drop)]
pub struct ClosedWindows {
    sectors: usize,
    // Those that have entries, in order of their sectors.
    kept: Vec<KeptWindow>,
}

impl Model for ClosedWindows {
    ghost use Rattle.std.specs.Prelude.{List};
    ghost use Rattle.vx_sector.specs.SectorData.{EntryData};
    ghost use Rattle.vx_record.specs.Kept.{windows_kept, AreInOrder};

    ghost Value = { List (List EntryData) };

    ghost view = { λ w. windows_kept w.sectors w.kept.items };

    ghost invariant = { λ w. AreInOrder w.sectors w.kept.items };
}

impl ClosedWindows {
    /// These windows; the list that is handed in has room for those with entries. It takes no
    /// memory.
    pub fn new(windows: Vec<Vec<Entry>>, room: Vec<KeptWindow>) -> ClosedWindows
        requires none { room.items ≡ [] }
        requires room { busy_count (map entries_in windows.items) ≤ vec_capacity room }
        ensures { result ≡ map entries_in windows.items }
    {
        let sectors = windows.len();
        let mut kept = room;
        for (sector, entries) in windows.into_iter().enumerate() {
            if !entries.is_empty() {
                kept.push_reserved(KeptWindow { sector, entries });
            }
        }
        ClosedWindows { sectors, kept }
    }

    /// The windows of so many sectors: these, which are kept, and one without entries for each
    /// other sector. It takes no memory.
    pub fn of_kept(sectors: usize, kept: Vec<KeptWindow>) -> ClosedWindows
        requires { AreInOrder sectors kept.items }
        ensures { result ≡ windows_kept sectors kept.items }
    {
        ClosedWindows { sectors, kept }
    }

    /// The windows of so many sectors, of which none has an entry. It takes no memory.
    pub fn none(alloc: Global, sectors: usize) -> ClosedWindows
        ensures { result ≡ replicate sectors [] }
    {
        ClosedWindows {
            sectors,
            kept: Vec::new(alloc),
        }
    }

    /// How many windows there are.
    pub fn count(&self) -> usize
        ensures { result ≡ length self.now }
    {
        self.sectors
    }

    /// Whether it is known that no window has an entry; it looks at none. Only costs rest on the
    /// answer that it is not known.
    pub fn is_quiet(&self) -> bool
        ensures { result ≡ true → All (λ window. window ≡ []) self.now }
    {
        self.kept.is_empty()
    }

    /// The record of the window of that number; empty where there is none.
    #[inline(always)]
    pub fn window(&self, at: usize) -> &[Entry]
        ensures { map entry_of result.now ≡ slice_index_or self.now at [] }
    {
        let before = self.kept.partition_point(|window| window.sector < at);
        match self.kept.get(before) {
            Some(window) if window.sector == at => &window.entries,
            _ => &[],
        }
    }

    /// The windows that are kept from that sector on, in order of their sectors; no other from
    /// there on has entries.
    pub(crate) fn kept_from(&self, first: usize) -> &[KeptWindow]
        ensures order { AreInOrder (length self.now) result.now }
        ensures from { All (λ window. first ≤ window.sector) result.now }
        ensures windows { (k : ℕ) → first ≤ k → slice_index_or self.now k []
            ≡ slice_index_or (windows_kept (length self.now) result.now) k [] }
    {
        let before = self.kept.partition_point(|window| window.sector < first);
        &self.kept[before..]
    }

    /// Puts the entries of each window in the place of its number, where as many places are empty.
    /// It goes to those alone that have entries.
    pub fn put_into<'a>(&'a self, places: &mut [&'a [Entry]])
        requires as_many { length places.old ≡ length self.now }
        requires empty { All (λ place. place ≡ [])
            (map (λ place. map entry_of place.now) places.old) }
        ensures { map (λ place. map entry_of place.now) places.new ≡ self.now }
    {
        for window in &self.kept {
            places[window.sector] = &window.entries;
        }
    }

    /// Counts the entries of each window, beside those that are counted for its sector already. It
    /// goes to those alone that have entries.
    pub(crate) fn count_into(&self, counts: &mut [u64])
        requires each { length self.now ≡ length counts.old }
        requires most { All (λ n. n ≤ most_entries) (next_counts counts.old self.now) }
        ensures { counts.new ≡ next_counts counts.old self.now }
    {
        for window in &self.kept {
            counts[window.sector] += window.entries.len() as u64;
        }
    }
}
