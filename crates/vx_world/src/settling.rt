//! The settlement of a world that has ended.
ghost use Rattle.std.specs.List.{All, sum_by};
ghost use Rattle.std.specs.Prelude.{◌≡◌, ◌+◌, ◌*◌, ◌≤◌, [], true, None, map, vec_len, vec_capacity, IfOk, IfErr, OnOk};
ghost use Rattle.vx_record.specs.Chronicles.{AreWindows, IsRun, map_after};
ghost use Rattle.vx_record.specs.Records.{chronicle_in};
ghost use Rattle.vx_windows.specs.Sectors.{entries_in};
ghost use Rattle.vx_record.specs.Archives.{calls_on};
ghost use Rattle.vx_record.specs.Calls.{calls_in};
ghost use Rattle.vx_record.specs.Settling.{IsFound, open_entries};
ghost use Rattle.vx_keeper.specs.Keepers.{AreByEdits, known};
ghost use Rattle.vx_world.specs.Settlements.{found_by, sector_here, caller_of, count_here, is_home, IsWindowHere};

use crate::books::Books;
use crate::home::Home;
use crate::lifted::Lifted;
use crate::pass::Pass;
use crate::report::Report;
use crate::seats::Seats;
use crate::settle_error::SettleError;
use crate::slot::Slot;
use crate::unsettled::Unsettled;
use std::alloc::Global;
use std::sync::ledger::Share;
use vx_keeper::{Keeper, Places};
use vx_record::{Fault, disagreement};
use vx_sector::Entry;

impl<A: Places, B: Seats> Lifted<A, B> {
    /// Settles the world: where each of its passes is there once, each sector is what the keeper
    /// has of it, and each list of each pass is what the record says of its seat in that sector, it
    /// hands out the record. Else it tells why not, the first cause of these in this order, and
    /// hands back all that was handed in; for want of memory too.
    pub fn finish(
        self,
        alloc: Global,
        keeper: Keeper<A>,
        passes: Vec<Pass<A, B>>,
    ) -> Result<Report, Unsettled<A, B>>
        requires ledgers { (A.parts ≡ A.all + B.all) × (B.parts ≡ 2 * B.all) }
        ensures settled { OnOk result (IsFound B.all (map caller_of passes.items)
            (map sector_here self.slots.items) (known keeper) keeper.chronicle.ticks None) }
        ensures unsettled { IfErr result (λ u. IsFound B.all (map caller_of passes.items)
            (map sector_here self.slots.items) (known keeper) keeper.chronicle.ticks
            (found_by u.error)) }
        ensures back { IfErr result (λ u.
            (u.lifted ≡ self) × (u.keeper ≡ keeper) × (u.passes ≡ passes)) }
        ensures chronicle { IfOk result (λ report.
            chronicle_in report.chronicle ≡ keeper.chronicle) }
        ensures windows { IfOk result (λ report. map entries_in report.windows.items
            ≡ map (λ slot. open_entries (sector_here slot)) self.slots.items) }
        ensures version { IfOk result (λ report. report.version ≡ keeper.world.version) }
        ensures run { IfOk result (λ report. IsRun (chronicle_in report.chronicle)) }
        ensures edits { IfOk result (λ report. AreByEdits A.first keeper.seen
            (chronicle_in report.chronicle).ticks report.version) }
        // Each open window follows the chronicle's ticks.
        ensures open { IfOk result (λ report. AreWindows keeper.chronicle.opening.names
            keeper.world.version.policy
            (map_after keeper.chronicle.opening.terrain keeper.chronicle.ticks).sectors
            (map entries_in report.windows.items)) }
        ensures calls { IfOk result (λ report.
            report.calls ≡ sum_by (λ pass. calls_in pass.lists) passes.items) }
        ensures entries { IfOk result (λ report.
            report.calls ≡ sum_by count_here self.slots.items) }
        ensures recorded { IfOk result (λ report. report.calls
            ≡ calls_on (chronicle_in report.chronicle).ticks (map entries_in report.windows.items)) }
    {
        let found = self.found(&keeper, &passes);
        if let Some(fault) = found {
            return Err(Unsettled {
                error: SettleError::Disagreement(fault),
                lifted: self,
                keeper,
                passes,
            });
        }
        let Ok(windows) = Vec::with_capacity(alloc, self.slots.len()) else {
            return Err(Unsettled {
                error: SettleError::NoMemory,
                lifted: self,
                keeper,
                passes,
            });
        };
        keeper.soundness();
        Ok(self.report(keeper, passes, windows))
    }

    // Why the world is not settled, if it is not.
    fn found(&self, keeper: &Keeper<A>, passes: &[Pass<A, B>]) -> Option<Fault>
        ensures { IsFound B.all (map caller_of passes.now) (map sector_here self.now.slots.items)
            (known keeper.now) keeper.now.chronicle.ticks result }
    {
        keeper.soundness();
        disagreement(passes, self.seats, &self.slots, keeper, keeper.archive())
    }

    // The record of a world in which all agree. There is room for its windows.
    fn report(self, keeper: Keeper<A>, passes: Vec<Pass<A, B>>, windows: Vec<Vec<Entry>>) -> Report
        requires ledgers { (A.parts ≡ A.all + B.all) × (B.parts ≡ 2 * B.all) }
        requires home { All (λ slot. is_home slot ≡ true) self.slots.items }
        requires passes { vec_len passes ≡ B.all }
        requires none { windows.items ≡ [] }
        requires room { vec_len self.slots ≤ vec_capacity windows }
        ensures chronicle { chronicle_in result.chronicle ≡ keeper.chronicle }
        ensures windows { map entries_in result.windows.items
            ≡ map (λ slot. open_entries (sector_here slot)) self.slots.items }
        ensures version { result.version ≡ keeper.world.version }
        ensures open { All (λ slot. IsWindowHere (sector_here slot)) self.slots.items }
        ensures calls { result.calls ≡ sum_by (λ pass. calls_in pass.lists) passes.items }
        ensures entries { result.calls ≡ sum_by count_here self.slots.items }
    {
        let Lifted {
            slots,
            books,
            seats: _,
        } = self;
        let mut books = books;
        let (places, mut seats) = pass_shares(&mut books, passes);
        let (mut places, windows) = place_shares(slots, places, windows);
        let calls = books.calls(&mut places, &mut seats);
        let (chronicle, version) = keeper.into_parts();
        Report {
            chronicle,
            windows,
            version,
            calls,
        }
    }
}

// What these passes have of the ledgers, joined, once the books have back what is left of their
// reserves.
fn pass_shares<A: Places, B: Seats>(
    books: &mut Books<A, B>,
    passes: Vec<Pass<A, B>>,
) -> (Share<A>, Share<B>)
    ensures places { (result.0.parts ≡ vec_len passes) × (result.0.amount ≡ 0) }
    ensures parts { result.1.parts ≡ 2 * vec_len passes }
    ensures amount { result.1.amount ≡ sum_by (λ pass. calls_in pass.lists) passes.items }
{
    let mut places = books.no_place();
    let mut seats = books.no_seat();
    for pass in passes {
        pass.join_shares(books, &mut places, &mut seats);
    }
    (places, seats)
}

// The shares of these sectors, joined to that of the passes, and their windows, for which there is
// room.
fn place_shares<A: Places>(
    slots: Vec<Slot<A>>,
    of_passes: Share<A>,
    windows: Vec<Vec<Entry>>,
) -> (Share<A>, Vec<Vec<Entry>>)
    requires amount { of_passes.amount ≡ 0 }
    requires home { All (λ slot. is_home slot ≡ true) slots.items }
    requires none { windows.items ≡ [] }
    requires room { vec_len slots ≤ vec_capacity windows }
    ensures parts { result.0.parts ≡ of_passes.parts + vec_len slots }
    ensures amount { result.0.amount ≡ sum_by count_here slots.items }
    ensures windows { map entries_in result.1.items
        ≡ map (λ slot. open_entries (sector_here slot)) slots.items }
    ensures open { All (λ slot. IsWindowHere (sector_here slot)) slots.items }
{
    let mut all = of_passes;
    let mut windows = windows;
    for slot in slots {
        let (share, window) = closed(slot);
        all.merge(share);
        windows.push_reserved(window);
    }
    (all, windows)
}

// The share and the window of a sector that is at home.
fn closed<A: Places>(slot: Slot<A>) -> (Share<A>, Vec<Entry>)
    requires { is_home slot ≡ true }
    ensures parts { result.0.parts ≡ 1 }
    ensures amount { result.0.amount ≡ count_here slot }
    ensures window { entries_in result.1 ≡ open_entries (sector_here slot) }
    ensures open { IsWindowHere (sector_here slot) }
{
    let Some(home) = slot.into_home() else {
        unreachable!()
    };
    let (marked, share) = home.into_parts();
    let sector = marked.into_sector();
    // Its clause says of every sector that its entries are a window.
    let _ = sector.entries();
    (share, sector.into_entries())
}
