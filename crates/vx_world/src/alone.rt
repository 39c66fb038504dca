//! Ticks of a world that one thread has to itself.
ghost use Rattle.std.specs.Prelude.{◌≡◌, ◌≢◌, ℕ, ◌⊎◌, ◌↔◌, ◌<◌, ◌≤◌, [], length, vec_len, true, Err, IfErr, IfNone, IfOk, IfSome, OnErr, OnSome};
ghost use Rattle.vx_step.specs.declared.workers.TheConstants.{MAX_WORKERS};
ghost use Rattle.vx_windows.specs.Limits.{most_ticks};
ghost use Rattle.vx_keeper.specs.Busy.{AreBusyOf};
ghost use Rattle.vx_keeper.specs.Keepers.{KnowsAsBefore};
ghost use Rattle.vx_keeper.specs.Marks.{AreBegun, AreParts, IsBegun};
ghost use Rattle.vx_keeper.specs.Readiness.{CanCloseBusy};
ghost use Rattle.vx_keeper.specs.declared.tick_error.TickError.TheVariants.{HistoryFull, NoMemory, NoView, Torn};
ghost use Rattle.vx_world.specs.Ticks.{AreNumbers, HasTicked};

use crate::home::Home;
use crate::seats::Seats;
use crate::slot::Slot;
use crate::taken::Taken;
use crate::ticking::{awaited, make};
use crate::world::World;
use std::alloc::{AllocError, Global};
use std::sync::{Condvar, Mutex, Wait};
use std::thread::Threads;
use vx_geom::Pos;
use vx_keeper::{Keeper, NextWindow, Places, ReadyForBusy, TickError};
use vx_sector::Fresh;
use vx_step::Gate;
use vx_tick::Fate;

impl<A: Places, B: Seats> World<A, B> {
    /// Makes a tick as `tick` does. Since no other thread can reach the world meanwhile, no lock
    /// is taken. Where the numbers are given, in ascending order, of the sectors in which
    /// something was recorded since the last tick, all others stay in their places, and only
    /// those of them are looked at whose next windows begin with other cells. The window of any
    /// other goes on, and is numbered when it is taken out next, or by `catch_up`; where another
    /// policy judges the next windows it is behind, until `begin_anew` or `catch_up`. If the
    /// numbers are wrong, a call that was recorded in a sector that goes on so stands in the
    /// window after the tick, and the settlement says so in the end; a sector in which nothing was
    /// recorded may be among them. Where no numbers are given each sector is taken out of its
    /// place.
    pub fn tick_alone<R: Threads + Wait + Sync, G: Gate + Sync>(
        &mut self,
        rt: &R,
        alloc: Global,
        keeper: &mut Keeper<A>,
        workers: usize,
        gate: &G,
        busy: Option<&[usize]>,
    ) -> Result<Vec<(Pos, Fate)>, TickError>
        requires workers { (0 < workers) × (workers ≤ MAX_WORKERS) }
        ensures ok { IfOk result (λ fates.
            HasTicked A.first A.all keeper.old fates.items keeper.new) }
        ensures err { OnErr result (KnowsAsBefore keeper.old keeper.new) }
        ensures full { (result ≡ Err HistoryFull)
            ↔ (most_ticks ≤ length keeper.old.chronicle.ticks) }
        ensures torn { (k : ℕ) → result ≡ Err (Torn k) → k < A.all }
        ensures bounds { self.new.bounds ≡ self.old.bounds }
    {
        if keeper.is_full() {
            return Err(TickError::HistoryFull);
        }
        let Some(numbers) = busy else {
            return self.tick_each(rt, alloc, keeper, workers, gate);
        };
        if numbers.is_empty() {
            return self.tick_at_rest(rt, alloc, keeper, workers, gate);
        }
        self.tick_some(rt, alloc, keeper, workers, gate, numbers)
    }

    /// Has the sector of that number begin its window anew, by the policy that judges the open
    /// windows, where a lone tick has left it behind. Before a command is carried out in it this has
    /// to be called, or the next tick finds it torn.
    pub fn begin_anew(
        &mut self,
        alloc: Global,
        at: usize,
        keeper: &Keeper<A>,
    ) -> Result<(), AllocError>
        ensures { self.new.bounds ≡ self.old.bounds }
    {
        if at < self.slots.len() {
            begin_anew_in(&mut self.slots[at], alloc, at, keeper)?;
        }
        Ok(())
    }

    /// Has each sector that is behind begin its window anew, and gives each the number of the
    /// version that judges the open windows, where the keeper knows that its window began with its
    /// part of the world. What is lifted next is then what the keeper has of it.
    pub fn catch_up(&mut self, alloc: Global, keeper: &Keeper<A>) -> Result<(), AllocError>
        ensures { self.new.bounds ≡ self.old.bounds }
    {
        self.begin_each_anew(alloc, keeper)?;
        for at in 0..self.slots.len() {
            catch_up_in(&mut self.slots[at], keeper);
        }
        Ok(())
    }

    // Has each sector that is behind begin its window anew.
    fn begin_each_anew(&mut self, alloc: Global, keeper: &Keeper<A>) -> Result<(), AllocError>
        ensures { self.new.bounds ≡ self.old.bounds }
    {
        for at in 0..self.slots.len() {
            self.begin_anew(alloc, at, keeper)?;
        }
        Ok(())
    }

    // Makes the tick of sectors in which nothing was recorded, and takes none of them out of its
    // place. If one that begins its next window with something is not known to rest each is taken
    // out all the same.
    fn tick_at_rest<R: Threads + Wait + Sync, G: Gate + Sync>(
        &mut self,
        rt: &R,
        alloc: Global,
        keeper: &mut Keeper<A>,
        workers: usize,
        gate: &G,
    ) -> Result<Vec<(Pos, Fate)>, TickError>
        requires workers { (0 < workers) × (workers ≤ MAX_WORKERS) }
        requires more { length keeper.old.chronicle.ticks < most_ticks }
        ensures ok { IfOk result (λ fates.
            HasTicked A.first A.all keeper.old fates.items keeper.new) }
        ensures err { OnErr result (KnowsAsBefore keeper.old keeper.new) }
        ensures full { result ≢ Err HistoryFull }
        ensures torn { (k : ℕ) → result ≡ Err (Torn k) → k < A.all }
        ensures bounds { self.new.bounds ≡ self.old.bounds }
    {
        let ready = keeper.ready_at_rest(rt, alloc, workers, gate)?;
        if !self.all_rest(keeper, ready.next()) {
            return self.tick_each(rt, alloc, keeper, workers, gate);
        }
        keeper.soundness();
        let (fates, next) = keeper.close_at_rest(alloc, ready);
        self.renew_each(keeper, next);
        Ok(fates)
    }

    // Makes the tick of sectors in which nothing was recorded but in those of these numbers, and
    // takes these alone out of their places. If they are no numbers of sectors, if one of them is
    // not what the keeper has of it, or if another that begins its next window with something is
    // not known to rest, each is taken out all the same.
    // Not inlined, so that a tick in which nothing was recorded is not held up by it.
    #[inline(never)]
    fn tick_some<R: Threads + Wait + Sync, G: Gate + Sync>(
        &mut self,
        rt: &R,
        alloc: Global,
        keeper: &mut Keeper<A>,
        workers: usize,
        gate: &G,
        numbers: &[usize],
    ) -> Result<Vec<(Pos, Fate)>, TickError>
        requires workers { (0 < workers) × (workers ≤ MAX_WORKERS) }
        requires more { length keeper.old.chronicle.ticks < most_ticks }
        ensures ok { IfOk result (λ fates.
            HasTicked A.first A.all keeper.old fates.items keeper.new) }
        ensures err { OnErr result (KnowsAsBefore keeper.old keeper.new) }
        ensures full { result ≢ Err HistoryFull }
        ensures torn { (k : ℕ) → result ≡ Err (Torn k) → k < A.all }
        ensures bounds { self.new.bounds ≡ self.old.bounds }
    {
        if !are_numbers(numbers, self.slots.len()) {
            return self.tick_each(rt, alloc, keeper, workers, gate);
        }
        let mut taken = Taken::with_room(alloc, self.slots.len())?;
        self.take_some(rt, keeper, &mut taken, numbers);
        let made = self.make_some(rt, alloc, keeper, &mut taken, workers, gate);
        self.put_some(keeper, taken, numbers);
        match made? {
            Some(fates) => Ok(fates),
            None => self.tick_each(rt, alloc, keeper, workers, gate),
        }
    }

    // Makes the tick of the sectors that were taken, and of the others, which rest in their places.
    // None is made where that takes each sector.
    fn make_some<R: Threads + Sync, G: Gate + Sync>(
        &mut self,
        rt: &R,
        alloc: Global,
        keeper: &mut Keeper<A>,
        taken: &mut Taken<A>,
        workers: usize,
        gate: &G,
    ) -> Result<Option<Vec<(Pos, Fate)>>, TickError>
        requires workers { (0 < workers) × (workers ≤ MAX_WORKERS) }
        requires more { length keeper.old.chronicle.ticks < most_ticks }
        requires parts { AreParts keeper.old.world taken.old.are_parts.items
            taken.old.sectors.items }
        ensures ok { IfOk result (λ made. IfSome made (λ fates.
            HasTicked A.first A.all keeper.old fates.items keeper.new)) }
        ensures none { IfOk result (λ made. IfNone made (KnowsAsBefore keeper.old keeper.new)) }
        ensures err { OnErr result (KnowsAsBefore keeper.old keeper.new) }
        ensures refused { IfErr result (λ error. (error ≡ NoView) ⊎ (error ≡ NoMemory)) }
        ensures count { vec_len taken.new.sectors ≡ vec_len taken.old.sectors }
        ensures parts { AreParts keeper.new.world taken.new.are_parts.items
            taken.new.sectors.items }
        ensures bounds { self.new.bounds ≡ self.old.bounds }
    {
        let Some(ready) = self.ready_some(rt, alloc, keeper, taken, workers, gate)? else {
            return Ok(None);
        };
        let (fates, next) = close_some(keeper, taken, ready);
        self.renew_each(keeper, next);
        Ok(Some(fates))
    }

    // Makes all that the tick takes of the sectors that were taken and of the others, which rest;
    // nothing where one of those that were taken is not what the keeper has of it, or where another
    // that begins its next window with something is not known to rest.
    fn ready_some<R: Threads + Sync, G: Gate + Sync>(
        &mut self,
        rt: &R,
        alloc: Global,
        keeper: &mut Keeper<A>,
        taken: &Taken<A>,
        workers: usize,
        gate: &G,
    ) -> Result<Option<ReadyForBusy>, TickError>
        requires workers { (0 < workers) × (workers ≤ MAX_WORKERS) }
        requires parts { AreParts keeper.old.world taken.now.are_parts.items
            taken.now.sectors.items }
        ensures known { IfOk result (λ made.
            OnSome made (AreBusyOf keeper.new taken.now.sectors.items)) }
        ensures ready { IfOk result (λ made.
            IfSome made (CanCloseBusy A.first keeper.new taken.now.sectors.items)) }
        ensures room { IfOk result (λ made. OnSome made (keeper.new.is_roomy ≡ true)) }
        ensures kept { KnowsAsBefore keeper.old keeper.new }
        ensures refused { IfErr result (λ error. (error ≡ NoView) ⊎ (error ≡ NoMemory)) }
        ensures bounds { self.new.bounds ≡ self.old.bounds }
    {
        if !keeper.knows_each(&taken.sectors, &taken.are_parts) {
            return Ok(None);
        }
        let ready = keeper.ready_for_busy(rt, alloc, &taken.sectors, workers, gate)?;
        if !self.all_rest(keeper, ready.next()) {
            return Ok(None);
        }
        Ok(Some(ready))
    }

    // Makes the tick of the sectors, each taken out of its place, once none is behind.
    fn tick_each<R: Threads + Wait + Sync, G: Gate + Sync>(
        &mut self,
        rt: &R,
        alloc: Global,
        keeper: &mut Keeper<A>,
        workers: usize,
        gate: &G,
    ) -> Result<Vec<(Pos, Fate)>, TickError>
        requires workers { (0 < workers) × (workers ≤ MAX_WORKERS) }
        ensures ok { IfOk result (λ fates.
            HasTicked A.first A.all keeper.old fates.items keeper.new) }
        ensures err { OnErr result (KnowsAsBefore keeper.old keeper.new) }
        ensures full { result ≡ Err HistoryFull
            → most_ticks ≤ length keeper.old.chronicle.ticks }
        ensures torn { (k : ℕ) → result ≡ Err (Torn k) → k < A.all }
        ensures bounds { self.new.bounds ≡ self.old.bounds }
    {
        self.begin_each_anew(alloc, keeper)?;
        let mut taken = Taken::with_room(alloc, self.slots.len())?;
        self.take_each(rt, keeper, &mut taken);
        let made = make(rt, alloc, keeper, &mut taken, workers, gate);
        self.put_each(keeper, taken);
        made
    }

    // Whether all sectors for which the list has something are known to rest, but for those that
    // were taken out of their places. No clause tells the answer: one that did not rest would stay
    // as it is, and be torn to the next tick.
    fn all_rest(&mut self, keeper: &Keeper<A>, next: &[NextWindow]) -> bool
        ensures { self.new.bounds ≡ self.old.bounds }
    {
        for window in next {
            if !self.rests_at(window.number, keeper) {
                return false;
            }
        }
        true
    }

    // Whether the sector of that number is known to rest, or is not in its place.
    fn rests_at(&mut self, at: usize, keeper: &Keeper<A>) -> bool
        ensures { self.new.bounds ≡ self.old.bounds }
    {
        if self.slots.len() <= at {
            return false;
        }
        rests_in(&mut self.slots[at], keeper)
    }

    // Has each sector in its place for which the list has something begin its next window with it.
    fn renew_each(&mut self, keeper: &Keeper<A>, next: Vec<NextWindow>)
        requires { AreBegun keeper.now.world next.items }
        ensures { self.new.bounds ≡ self.old.bounds }
    {
        for window in next {
            self.renew_at(window.number, keeper, window.fresh);
        }
    }

    // Has the sector of that number, if it is in its place, begin its next window with this.
    fn renew_at(&mut self, at: usize, keeper: &Keeper<A>, fresh: Fresh)
        requires { IsBegun keeper.now.world at fresh }
        ensures { self.new.bounds ≡ self.old.bounds }
    {
        if at < self.slots.len() {
            renew_in(&mut self.slots[at], at, keeper, fresh);
        }
    }

    // Takes each sector out of its place, in the order of their numbers.
    fn take_each<R: Wait>(&mut self, rt: &R, keeper: &Keeper<A>, taken: &mut Taken<A>)
        requires { taken.old.sectors.items ≡ [] }
        ensures all { vec_len taken.new.sectors ≡ A.all }
        ensures parts { AreParts keeper.now.world taken.new.are_parts.items
            taken.new.sectors.items }
        ensures bounds { self.new.bounds ≡ self.old.bounds }
    {
        for at in 0..self.slots.len() {
            let home = home_in(rt, &self.came, &mut self.slots[at]);
            taken.add(keeper, home);
        }
    }

    // Takes the sectors of these numbers out of their places, in this order.
    fn take_some<R: Wait>(
        &mut self,
        rt: &R,
        keeper: &Keeper<A>,
        taken: &mut Taken<A>,
        numbers: &[usize],
    )
        requires none { taken.old.sectors.items ≡ [] }
        requires numbers { AreNumbers A.all numbers.now }
        ensures count { vec_len taken.new.sectors ≡ length numbers.now }
        ensures parts { AreParts keeper.now.world taken.new.are_parts.items
            taken.new.sectors.items }
        ensures bounds { self.new.bounds ≡ self.old.bounds }
    {
        for at in numbers {
            let home = home_in(rt, &self.came, &mut self.slots[*at]);
            taken.add(keeper, home);
        }
    }

    // Puts the sectors of these numbers back, as `put_each` does each.
    fn put_some(&mut self, keeper: &Keeper<A>, taken: Taken<A>, numbers: &[usize])
        requires numbers { AreNumbers A.all numbers.now }
        requires count { vec_len taken.sectors ≡ length numbers.now }
        requires parts { AreParts keeper.now.world taken.are_parts.items taken.sectors.items }
        ensures bounds { self.new.bounds ≡ self.old.bounds }
    {
        let mut taken = taken;
        for at in numbers.iter().rev() {
            let Some(home) = taken.pop_home(keeper) else {
                unreachable!()
            };
            put_in(&mut self.slots[*at], home);
        }
        taken.end();
    }

    // Puts each sector back, with the mark of what the keeper knows where its window began with its
    // part of that.
    fn put_each(&mut self, keeper: &Keeper<A>, taken: Taken<A>)
        requires all { vec_len taken.sectors ≡ A.all }
        requires parts { AreParts keeper.now.world taken.are_parts.items taken.sectors.items }
        ensures bounds { self.new.bounds ≡ self.old.bounds }
    {
        let mut taken = taken;
        for at in (0..self.slots.len()).rev() {
            let Some(home) = taken.pop_home(keeper) else {
                unreachable!()
            };
            put_in(&mut self.slots[at], home);
        }
        taken.end();
    }
}

// Whether these are numbers of so many sectors, each above the one before it.
fn are_numbers(numbers: &[usize], count: usize) -> bool
    ensures { result ≡ true → AreNumbers count numbers.now }
{
    let mut least = 0;
    for number in numbers {
        if *number < least || count <= *number {
            return false;
        }
        least = *number + 1;
    }
    true
}

// Makes the tick of the sectors that were taken, and of all others as they rest. It hands out what
// becomes of the moves, and what the next windows of sectors begin with.
fn close_some<A: Places>(
    keeper: &mut Keeper<A>,
    taken: &mut Taken<A>,
    ready: ReadyForBusy,
) -> (Vec<(Pos, Fate)>, Vec<NextWindow>)
    requires known { AreBusyOf keeper.old taken.old.sectors.items }
    requires more { length keeper.old.chronicle.ticks < most_ticks }
    requires room { keeper.old.is_roomy ≡ true }
    requires ready { CanCloseBusy A.first keeper.old taken.old.sectors.items ready }
    ensures ticked { HasTicked A.first A.all keeper.old result.0.items keeper.new }
    ensures begun { AreBegun keeper.new.world result.1.items }
    ensures count { vec_len taken.new.sectors ≡ vec_len taken.old.sectors }
    ensures parts { AreParts keeper.new.world taken.new.are_parts.items
        taken.new.sectors.items }
{
    keeper.soundness();
    let Taken { sectors, .. } = taken;
    let closed = keeper.close_busy(sectors, ready);
    taken.are_all_parts();
    closed
}

// Takes a sector out of its place. One that is away is waited for; between two ticks none is.
fn home_in<A: Places, R: Wait>(rt: &R, came: &Condvar, slot: &mut Mutex<Slot<A>>) -> Home<A> {
    match slot.get_mut().home.take() {
        Some(home) => home,
        None => awaited(rt, came, slot),
    }
}

// Puts a sector back in its place.
fn put_in<A: Places>(slot: &mut Mutex<Slot<A>>, home: Home<A>) {
    slot.get_mut().put(home);
}

// Whether the sector in this place, if one is there, is known to rest.
fn rests_in<A: Places>(slot: &mut Mutex<Slot<A>>, keeper: &Keeper<A>) -> bool {
    slot.get_mut().rests(keeper)
}

// Has the sector in the place of that number begin its next window with this.
fn renew_in<A: Places>(slot: &mut Mutex<Slot<A>>, at: usize, keeper: &Keeper<A>, fresh: Fresh)
    requires { IsBegun keeper.now.world at fresh }
{
    slot.get_mut().renew(at, keeper, fresh);
}

// Has the sector in the place of that number, if it is there, begin its window anew where that is
// behind.
fn begin_anew_in<A: Places>(
    slot: &mut Mutex<Slot<A>>,
    alloc: Global,
    at: usize,
    keeper: &Keeper<A>,
) -> Result<(), AllocError>
    requires { at < A.all }
{
    slot.get_mut().begin_anew(alloc, at, keeper)
}

// Gives the sector in its place the number of the version that judges the open windows, where the
// keeper knows it.
fn catch_up_in<A: Places>(slot: &mut Mutex<Slot<A>>, keeper: &Keeper<A>) {
    slot.get_mut().catch_up(keeper);
}
