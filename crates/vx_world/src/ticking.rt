//! A tick of a world that threads share.
ghost use Rattle.std.specs.List.{All};
ghost use Rattle.std.specs.Prelude.{◌≡◌, ℕ, ◌↔◌, ◌<◌, ◌≤◌, [], length, map, vec_len, Err, IfOk, OnOk, OnErr};
ghost use Rattle.vx_step.specs.declared.workers.TheConstants.{MAX_WORKERS};
ghost use Rattle.vx_windows.specs.Limits.{most_ticks};
ghost use Rattle.vx_sector.specs.Windows.{count_of};
ghost use Rattle.vx_keeper.specs.Keepers.{KnowsAsBefore};
ghost use Rattle.vx_keeper.specs.Marks.{AreParts, IsPartOf};
ghost use Rattle.vx_keeper.specs.declared.tick_error.TickError.TheVariants.{HistoryFull, Torn};
ghost use Rattle.vx_world.specs.Ticks.{HasTicked};

use crate::home::Home;
use crate::seats::Seats;
use crate::slot::Slot;
use crate::taken::Taken;
use crate::world::World;
use std::alloc::Global;
use std::sync::{Condvar, Mutex, Wait};
use std::thread::Threads;
use vx_geom::Pos;
use vx_keeper::{Keeper, Places, TickError};
use vx_sector::Sector;
use vx_step::Gate;
use vx_tick::Fate;

impl<A: Places, B: Seats> World<A, B> {
    /// Makes a tick: takes each sector out of its lock, makes the tick of them all by the version
    /// that judged their windows, on 1 to 8 threads, and puts each back in its next window, which
    /// the policy judges that the keeper sees by then. It tells what becomes of the pistons' moves,
    /// in the order of positions. Where no tick is made, for want of memory or of a view too, the
    /// sectors are put back as they were, and the keeper knows what it knew. A sector that a lone
    /// tick has left behind is torn to it, unless `catch_up` was called since.
    pub fn tick<R: Threads + Wait + Sync, G: Gate + Sync>(
        &self,
        rt: &R,
        alloc: Global,
        keeper: &mut Keeper<A>,
        workers: usize,
        gate: &G,
    ) -> Result<Vec<(Pos, Fate)>, TickError>
        requires workers { (0 < workers) × (workers ≤ MAX_WORKERS) }
        ensures ok { IfOk result (λ fates.
            HasTicked A.first A.all keeper.old fates.items keeper.new) }
        ensures err { OnErr result (KnowsAsBefore keeper.old keeper.new) }
        ensures full { (result ≡ Err HistoryFull)
            ↔ (most_ticks ≤ length keeper.old.chronicle.ticks) }
        ensures torn { (k : ℕ) → result ≡ Err (Torn k) → k < A.all }
    {
        if keeper.is_full() {
            return Err(TickError::HistoryFull);
        }
        let mut taken = Taken::with_room(alloc, self.slots.len())?;
        self.take_all(rt, keeper, &mut taken);
        let made = make(rt, alloc, keeper, &mut taken, workers, gate);
        self.put_all(rt, keeper, taken);
        made
    }

    // Takes each sector out of its lock, in the order of their numbers, and waits for those that
    // are away.
    fn take_all<R: Wait>(&self, rt: &R, keeper: &Keeper<A>, taken: &mut Taken<A>)
        requires { taken.old.sectors.items ≡ [] }
        ensures all { vec_len taken.new.sectors ≡ A.all }
        ensures parts { AreParts keeper.now.world taken.new.are_parts.items
            taken.new.sectors.items }
    {
        for slot in &self.slots {
            taken.add(keeper, awaited(rt, &self.came, slot));
        }
    }

    // Puts each sector back, with the mark of what the keeper knows where its window began with its
    // part of that.
    fn put_all<R: Wait>(&self, rt: &R, keeper: &Keeper<A>, taken: Taken<A>)
        requires all { vec_len taken.sectors ≡ A.all }
        requires parts { AreParts keeper.now.world taken.are_parts.items taken.sectors.items }
    {
        let mut taken = taken;
        for at in (0..self.slots.len()).rev() {
            let Some(home) = taken.pop_home(keeper) else {
                unreachable!()
            };
            self.slots[at].lock(rt).put(home);
        }
        taken.end();
        self.came.notify_all();
    }
}

// Takes a sector out of its lock, and waits while it is away.
pub(crate) fn awaited<A: Places, R: Wait>(
    rt: &R,
    came: &Condvar,
    slot: &Mutex<Slot<A>>,
) -> Home<A> {
    let mut place = came.wait_while(rt, slot.lock(rt), |slot| slot.home.is_none());
    let Some(home) = place.home.take() else {
        unreachable!()
    };
    home
}

// Makes the tick of the sectors that were taken.
pub(crate) fn make<A: Places, R: Threads + Wait + Sync, G: Gate + Sync>(
    rt: &R,
    alloc: Global,
    keeper: &mut Keeper<A>,
    taken: &mut Taken<A>,
    workers: usize,
    gate: &G,
) -> Result<Vec<(Pos, Fate)>, TickError>
    requires workers { (0 < workers) × (workers ≤ MAX_WORKERS) }
    requires all { vec_len taken.old.sectors ≡ A.all }
    requires parts { AreParts keeper.old.world taken.old.are_parts.items
        taken.old.sectors.items }
    ensures ok { IfOk result (λ fates.
        HasTicked A.first A.all keeper.old fates.items keeper.new) }
    ensures err { OnErr result (KnowsAsBefore keeper.old keeper.new) }
    ensures full { result ≡ Err HistoryFull
        → most_ticks ≤ length keeper.old.chronicle.ticks }
    ensures torn { (k : ℕ) → result ≡ Err (Torn k) → k < A.all }
    ensures all { vec_len taken.new.sectors ≡ A.all }
    ensures parts { AreParts keeper.new.world taken.new.are_parts.items
        taken.new.sectors.items }
{
    let Taken {
        sectors,
        are_parts,
        ..
    } = taken;
    let fates = tick_of(rt, alloc, keeper, sectors, are_parts, workers, gate)?;
    taken.are_all_parts();
    Ok(fates)
}

// Makes the tick of these sectors, all of the world in order of their numbers.
fn tick_of<A: Places, R: Threads + Wait + Sync, G: Gate + Sync>(
    rt: &R,
    alloc: Global,
    keeper: &mut Keeper<A>,
    sectors: &mut [Sector],
    are_parts: &[bool],
    workers: usize,
    gate: &G,
) -> Result<Vec<(Pos, Fate)>, TickError>
    requires workers { (0 < workers) × (workers ≤ MAX_WORKERS) }
    requires all { length sectors.old ≡ A.all }
    requires parts { AreParts keeper.old.world are_parts.now sectors.old }
    ensures ok { IfOk result (λ fates.
        HasTicked A.first A.all keeper.old fates.items keeper.new) }
    ensures err { OnErr result (KnowsAsBefore keeper.old keeper.new) }
    ensures full { result ≡ Err HistoryFull
        → most_ticks ≤ length keeper.old.chronicle.ticks }
    ensures torn { (k : ℕ) → result ≡ Err (Torn k) → k < A.all }
    ensures kept { OnErr result (sectors.new ≡ sectors.old) }
    ensures counts { map count_of sectors.new ≡ map count_of sectors.old }
    ensures parts { OnOk result (All (IsPartOf keeper.new.world) sectors.new) }
{
    let work = keeper.work(rt, alloc, sectors, are_parts, workers, gate)?;
    let version = keeper.fix()?;
    let ready = keeper.fresh(alloc, sectors, work, version)?;
    Ok(keeper.close(sectors, ready))
}
