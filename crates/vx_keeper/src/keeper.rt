ghost use Rattle.std.specs.Bool.{Decides};
ghost use Rattle.std.specs.List.{All};
ghost use mathlib.Core.List.{IsPrefix};
ghost use Rattle.std.specs.Prelude.{◌≡◌, ℕ, ◌<◌, ◌≤◌, ◌+◌, ◌↔◌, ◌⊎◌, true, false, [], length, map, None, Some, Ok, Err, IfOk, IfErr, IfSome, MatchOption, OnErr, OnOk};
ghost use Rattle.vx_step.specs.declared.workers.TheConstants.{MAX_WORKERS};
ghost use Rattle.vx_windows.specs.Sectors.{cells_of, all_renewed, opened_by, opened_with, first_version};
ghost use Rattle.vx_windows.specs.Limits.{most_ticks};
ghost use Rattle.vx_still.specs.Watching.{IsWatch};
ghost use Rattle.vx_tick.specs.Leaving.{IsPlanned};
ghost use Rattle.vx_sector.specs.Windows.{count_of};
ghost use Rattle.vx_record.specs.Records.{chronicle_in};
ghost use Rattle.vx_record.specs.Settling.{AreKnown, BeganWith, IsKnown, IsTorn};
ghost use Rattle.vx_keeper.specs.Busy.{AreBusyOf, resting_but};
ghost use Rattle.vx_keeper.specs.Keepers.{IsKeeper, KnowsAsBefore, keeper_data, known, version_next, map_now, map_next, fates_next, chronicle_next, resting};
ghost use Rattle.vx_keeper.specs.Marks.{AreBegun, AreParts, IsPartOf, IsQuietAt};
ghost use Rattle.vx_keeper.specs.Readiness.{CanClose, CanCloseBusy, CanLead};
ghost use Rattle.vx_keeper.specs.Torn.{IsNoWork};
ghost use Rattle.vx_keeper.specs.declared.tick_error.TickError.TheVariants.{HistoryFull, NoMemory, NoView, Torn};

mod marking;

use crate::busy::{cells_but, number_of, renew_busy};
use crate::known::Known;
use crate::next_window::NextWindow;
use crate::places::Places;
use crate::ready::Ready;
use crate::ready_at_rest::ReadyAtRest;
use crate::ready_for_busy::ReadyForBusy;
use crate::sector_marks::SectorMarks;
use crate::sound::{are_sectors, is_sector};
use crate::tick_error::TickError;
use crate::work::Work;
use std::alloc::{AllocError, Global};
use std::marker::Model;
use std::thread::Threads;
use vx_board::{Listed, View};
use vx_cells::Frozen;
use vx_geom::{Bounds, Pos};
use vx_policy::Version;
use vx_record::{Archive, Chronicle, ClosedWindows, Opening, Tick, follows};
use vx_sector::Sector;
use vx_stamp::Stamper;
use vx_step::{Gate, plan_parts};
use vx_still::Watch;
use vx_tick::{Fate, Plan};
use vx_windows::{MAX_TICKS, cells_of, open_sectors, renew_sectors, written};

/// The keeper of a world: its chronicle, and what it knows of the world between two ticks. One who
/// holds it makes the ticks, of sectors that were taken out of their locks.
// It keeps what is known of the map as the windows began, so that a tick looks only where it
// changed; where that was lost, for want of memory in a tick, the next one looks everywhere. It
// keeps a view of the desk, by which it fixes versions, and for each sector a mark of what it knew
// when that sector's part of it last changed, which it gives to the sector.
pub struct Keeper<A: Places> {
    archive: Archive,
    known: Known,
    watch: Option<Watch>,
    view: View<A>,
    stamper: Stamper<Known, A>,
    marks: SectorMarks<A>,
}

impl<A: Places> Model for Keeper<A> {
    ghost use Rattle.std.specs.Prelude.{IfSome};
    ghost use Rattle.vx_keeper.specs.Keepers.{KeeperData, IsKeeper, keeper_data};
    ghost use Rattle.vx_keeper.specs.Marks.{AreMarks};
    ghost use Rattle.vx_still.specs.Watching.{IsWatch};

    ghost Value = { KeeperData };

    ghost view = { λ a. keeper_data a.archive a.known a.view };

    ghost invariant = { λ a. IsKeeper A.first A.all (keeper_data a.archive a.known a.view)
        × AreMarks a.marks a.known
        × IfSome a.watch (IsWatch a.known.map) };
}

// Written out, so that what is above this crate need not prove how its parts are let go.
impl<A: Places> Drop for Keeper<A> {
    fn drop(self) {
        let Keeper {
            archive: _archive,
            known: _known,
            watch: _watch,
            view: _view,
            stamper: _stamper,
            marks: _marks,
        } = self;
    }
}

impl<A: Places> Keeper<A> {
    /// The keeper of a world that opens so, with a view of its desk, and the sectors of that world,
    /// in order of their numbers, in their first windows.
    pub fn new(
        alloc: Global,
        opening: Opening,
        view: View<A>,
        stamper: Stamper<Known, A>,
    ) -> Result<(Keeper<A>, Vec<Sector>), AllocError>
        requires first { opening.policy ≡ A.first }
        requires all { length opening.terrain.sectors ≡ A.all }
        ensures chronicle { IfOk result (λ opened.
            opened.0.chronicle ≡ record { opening = opening; ticks = [] }) }
        ensures world { IfOk result (λ opened. opened.0.world
            ≡ record { map = opening.terrain; version = first_version opening.policy }) }
        ensures seen { IfOk result (λ opened. opened.0.seen ≡ view) }
        ensures sectors { IfOk result (λ opened. opened.1.items
            ≡ map (opened_with opening.policy) opening.terrain.sectors) }
        ensures parts { IfOk result (λ opened.
            All (IsPartOf opened.0.world) opened.1.items) }
    {
        opening.soundness();
        let known = begun(&opening)?;
        let sectors = first_sectors(alloc, &opening, known.version())?;
        let archive = Archive::new(alloc, opening)?;
        view.soundness();
        let marks = SectorMarks::none(alloc, sectors.len())?;
        let keeper = Keeper::opened(archive, known, view, stamper, marks);
        Ok((keeper, sectors))
    }

    // The keeper of a world without a tick yet.
    fn opened(
        archive: Archive,
        known: Known,
        view: View<A>,
        stamper: Stamper<Known, A>,
        marks: SectorMarks<A>,
    ) -> Keeper<A>
        requires keeper { IsKeeper A.first A.all (keeper_data archive known view) }
        requires marks { length marks ≡ length known.map.sectors }
        ensures { result ≡ keeper_data archive known view }
    {
        let mut stamper = stamper;
        let mut marks = marks;
        let mark = stamper.mark(&known);
        marks.give_all(&mark);
        Keeper {
            archive,
            known,
            watch: None,
            view,
            stamper,
            marks,
        }
    }

    /// Whether the sector is what the keeper has of the sector of that number. Where it is said to
    /// have begun with its part of what the keeper knows, nothing of it is compared but its number
    /// and its record.
    pub fn knows(&self, at: usize, sector: &Sector, is_part: bool) -> bool
        requires there { at < A.all }
        requires part { is_part ≡ true → IsPartOf self.now.world sector.now }
        ensures { Decides result (IsKnown (Some sector.now) (known self.now at)) }
    {
        self.has_begun(at, sector, is_part)
            && follows(sector, self.archive.count(at), self.archive.opening())
    }

    /// Whether there are as many ticks as there may be.
    pub fn is_full(&self) -> bool
        ensures { Decides result (most_ticks ≤ length self.now.chronicle.ticks) }
    {
        MAX_TICKS <= self.archive.ticks().len() as u64
    }

    /// What the next tick does, whose windows these sectors have, all of the world in order of
    /// their numbers. Where one is not what the keeper has of it the first of these is told; but
    /// first of all, that there is no number left. The sectors are worked by 1 to 8 threads. What
    /// the keeper kept of the map goes into the work, so that a second call for one tick looks
    /// everywhere.
    pub fn work<R: Threads + Sync, G: Gate + Sync>(
        &mut self,
        rt: &R,
        alloc: Global,
        sectors: &[Sector],
        are_parts: &[bool],
        workers: usize,
        gate: &G,
    ) -> Result<Work, TickError>
        requires each { length sectors.now ≡ A.all }
        requires parts { AreParts self.old.world are_parts.now sectors.now }
        requires workers { (0 < workers) × (workers ≤ MAX_WORKERS) }
        ensures same { self.new ≡ self.old }
        ensures full { (result ≡ Err HistoryFull)
            ↔ (most_ticks ≤ length self.old.chronicle.ticks) }
        ensures refused { IfErr result (IsNoWork (known self.old) (map Some sectors.now)) }
        ensures torn { (k : ℕ) → result ≡ Err (Torn k) → k < A.all }
        ensures known { OnOk result (AreKnown (known self.old) (map Some sectors.now)) }
        ensures worked { IfOk result (λ work. IsPlanned self.old.world.version.policy
            (map_now self.old sectors.now) (work.plan, work.watch)) }
    {
        if self.is_full() {
            return Err(TickError::HistoryFull);
        }
        if let Some(at) = self.first_torn(sectors, are_parts) {
            return Err(TickError::Torn(at));
        }
        let watch = self.take_watch();
        Ok(self.worked(rt, alloc, watch, sectors, workers, gate)?)
    }

    /// From now on it fixes no version without the edits of this list. It takes no memory.
    pub fn learn(&mut self, listed: &Listed<A>)
        ensures seen { IsPrefix self.old.seen self.new.seen }
        ensures learnt { IsPrefix listed.now.front self.new.seen }
        ensures kept { self.new ≡ record self.old { seen = self.new.seen } }
    {
        self.view.learn(listed);
        self.view.soundness();
    }

    /// The version that the next tick fixes: the policy after all edits that the keeper's view then
    /// sees. These begin with all that it has seen or was told of.
    pub fn fix(&mut self) -> Result<Version, TickError>
        ensures version { IfOk result (λ version. version ≡ version_next A.first self.new) }
        ensures refused { IfErr result (λ error. (error ≡ NoView) ⊎ (error ≡ NoMemory)) }
        ensures seen { IsPrefix self.old.seen self.new.seen }
        ensures kept { self.new ≡ record self.old { seen = self.new.seen } }
    {
        let number = self.next_number();
        Ok(self.view.fix(number)?)
    }

    /// Makes all that closing the windows of these sectors takes, with the work of the tick and the
    /// version that judges their next windows.
    pub fn fresh(
        &mut self,
        alloc: Global,
        sectors: &[Sector],
        work: Work,
        version: Version,
    ) -> Result<Ready, AllocError>
        requires known { AreKnown (known self.old) (map Some sectors.now) }
        requires each { length sectors.now ≡ A.all }
        requires worked { IsPlanned self.old.world.version.policy
            (map_now self.old sectors.now) (work.plan, work.watch) }
        requires version { version ≡ version_next A.first self.old }
        ensures chronicle { self.new.chronicle ≡ self.old.chronicle }
        ensures counts { self.new.counts ≡ self.old.counts }
        ensures world { self.new.world ≡ self.old.world }
        ensures seen { self.new.seen ≡ self.old.seen }
        ensures room { OnOk result (self.new.is_roomy ≡ true) }
        ensures ready { IfOk result (CanClose A.first self.new sectors.now) }
    {
        self.soundness();
        are_sectors(sectors);
        self.archive.reserve()?;
        let is_same_policy = version.edits == self.known.version().edits;
        Ready::new(
            alloc,
            self.known.bounds(),
            sectors,
            version,
            is_same_policy,
            work,
        )
    }

    /// Makes the tick: closes the windows of these sectors, adds them with what becomes of the
    /// moves to the chronicle, and begins the sectors' next windows over the map after the tick.
    /// It hands out what becomes of the moves. It takes no memory.
    pub fn close(&mut self, sectors: &mut [Sector], ready: Ready) -> Vec<(Pos, Fate)>
        requires known { AreKnown (known self.old) (map Some sectors.old) }
        requires each { length sectors.old ≡ A.all }
        requires more { length self.old.chronicle.ticks < most_ticks }
        requires room { self.old.is_roomy ≡ true }
        requires ready { CanClose A.first self.old sectors.old ready }
        ensures chronicle { self.new.chronicle ≡ chronicle_next self.old sectors.old }
        ensures counts { self.new.counts ≡ map count_of sectors.old }
        ensures world { self.new.world
            ≡ record { map = map_next self.old sectors.old; version = ready.version } }
        ensures seen { self.new.seen ≡ self.old.seen }
        ensures sectors { sectors.new ≡ all_renewed ready.version sectors.old
            (map_next self.old sectors.old).sectors }
        ensures fates { result.items ≡ fates_next self.old sectors.old }
        ensures parts { All (IsPartOf self.new.world) sectors.new }
    {
        self.soundness();
        are_sectors(sectors);
        let Ready {
            version,
            fates,
            told,
            watch,
            changes,
            fresh,
            windows,
            kept,
        } = ready;
        let tick = version.tick;
        let number = self.archive.ticks().len() as u64 + 1;
        let was = self.known.go_on(changes, version);
        let windows = renew_sectors(sectors, fresh, tick, windows);
        self.archive.add(Tick {
            number,
            version: was,
            windows: ClosedWindows::new(windows, kept),
            fates,
        });
        self.watch = Some(watch);
        let mark = self.stamper.mark(&self.known);
        self.marks.give_all(&mark);
        told
    }

    /// Makes all that the tick takes of a world in which nothing is recorded since the last one, so
    /// that each sector rests as the keeper has it. Where the machines put nothing down it looks at
    /// no sector; else it costs what they put down, and a place in two lists for each sector. The
    /// sectors are worked by 1 to 8 threads.
    pub fn ready_at_rest<R: Threads + Sync, G: Gate + Sync>(
        &mut self,
        rt: &R,
        alloc: Global,
        workers: usize,
        gate: &G,
    ) -> Result<ReadyAtRest, TickError>
        requires workers { (0 < workers) × (workers ≤ MAX_WORKERS) }
        ensures ready { IfOk result (CanLead A.first self.new (resting self.new)) }
        ensures room { OnOk result (self.new.is_roomy ≡ true) }
        ensures kept { KnowsAsBefore self.old self.new }
        ensures refused { IfErr result (λ error. (error ≡ NoView) ⊎ (error ≡ NoMemory)) }
    {
        let version = self.fix()?;
        let archive = &mut self.archive;
        archive.reserve()?;
        let (plan, watch) = self.planned(rt, alloc, workers, gate)?;
        self.soundness();
        let is_same_policy = self.known.version().edits == version.edits;
        Ok(ReadyAtRest::new(
            alloc,
            &self.known,
            version,
            is_same_policy,
            Work { plan, watch },
        )?)
    }

    /// Makes the tick of a world in which nothing is recorded since the last one: adds it to the
    /// chronicle, with a window without entries for each sector, and goes on to the map after it.
    /// It hands out what becomes of the moves, and what the next windows of sectors begin with. The
    /// window of a sector for which the list has nothing goes on as it is, and is behind where
    /// another policy judges the next windows. It takes no memory.
    pub fn close_at_rest(
        &mut self,
        alloc: Global,
        ready: ReadyAtRest,
    ) -> (Vec<(Pos, Fate)>, Vec<NextWindow>)
        requires more { length self.old.chronicle.ticks < most_ticks }
        requires room { self.old.is_roomy ≡ true }
        requires ready { CanLead A.first self.old (resting self.old) ready }
        ensures chronicle { self.new.chronicle ≡ chronicle_next self.old (resting self.old) }
        ensures counts { self.new.counts ≡ self.old.counts }
        ensures world { self.new.world ≡ record {
          map = map_next self.old (resting self.old);
          version = version_next A.first self.old;
        } }
        ensures seen { self.new.seen ≡ self.old.seen }
        ensures fates { result.0.items ≡ fates_next self.old (resting self.old) }
        ensures begun { AreBegun self.new.world result.1.items }
    {
        self.soundness();
        let ReadyAtRest {
            version,
            fates,
            told,
            watch,
            changes,
            next,
            is_same_policy,
        } = ready;
        let before = self.archive.ticks().len() as u64;
        let sectors = self.archive.counts().len();
        let was = self.known.go_on(changes, version);
        self.archive.add(Tick {
            number: before + 1,
            version: was,
            windows: ClosedWindows::none(alloc, sectors),
            fates,
        });
        self.watch = Some(watch);
        let mark = self.stamper.mark(&self.known);
        self.marks.give_next(&next, is_same_policy, &mark);
        (told, next)
    }

    /// Whether each of these sectors is what the keeper has of the sector of its number, and of a
    /// higher number than the one before it. Those that are said to have begun with their parts of
    /// what the keeper knows are not compared, but for their numbers and records. Only costs rest
    /// on a no.
    pub fn knows_each(&self, sectors: &[Sector], are_parts: &[bool]) -> bool
        requires parts { AreParts self.now.world are_parts.now sectors.now }
        ensures { result ≡ true → AreBusyOf self.now sectors.now }
    {
        self.soundness();
        let mut least = 0;
        for (at, sector) in sectors.iter().enumerate() {
            let number = number_of(sector);
            if number < least
                || self.archive.counts().len() <= number
                || !self.knows(number, sector, are_parts[at])
            {
                return false;
            }
            least = number + 1;
        }
        true
    }

    /// Makes all that the tick takes of a world in which nothing is recorded since the last one but
    /// in these sectors. It costs what was recorded and what the machines put down, and a place in
    /// some lists for each sector. The sectors are worked by 1 to 8 threads.
    pub fn ready_for_busy<R: Threads + Sync, G: Gate + Sync>(
        &mut self,
        rt: &R,
        alloc: Global,
        busy: &[Sector],
        workers: usize,
        gate: &G,
    ) -> Result<ReadyForBusy, TickError>
        requires workers { (0 < workers) × (workers ≤ MAX_WORKERS) }
        requires known { AreBusyOf self.old busy.now }
        ensures ready { IfOk result (CanCloseBusy A.first self.new busy.now) }
        ensures room { OnOk result (self.new.is_roomy ≡ true) }
        ensures kept { KnowsAsBefore self.old self.new }
        ensures refused { IfErr result (λ error. (error ≡ NoView) ⊎ (error ≡ NoMemory)) }
    {
        let version = self.fix()?;
        let archive = &mut self.archive;
        archive.reserve()?;
        let (plan, watch) = self.planned_but(rt, alloc, busy, workers, gate)?;
        self.soundness();
        are_sectors(busy);
        let is_same_policy = self.known.version().edits == version.edits;
        Ok(ReadyForBusy::new(
            alloc,
            &self.known,
            busy,
            version,
            is_same_policy,
            Work { plan, watch },
        )?)
    }

    /// Makes the tick of a world in which nothing is recorded since the last one but in these
    /// sectors: adds it to the chronicle, with their windows and one without entries for each other
    /// sector, goes on to the map after it, and begins the next windows of these sectors. It hands
    /// out what becomes of the moves, and what the next windows of sectors begin with, these among
    /// them. The window of a sector for which the list has nothing goes on as it is, and is behind
    /// where another policy judges the next windows. It takes no memory.
    pub fn close_busy(
        &mut self,
        busy: &mut [Sector],
        ready: ReadyForBusy,
    ) -> (Vec<(Pos, Fate)>, Vec<NextWindow>)
        requires known { AreBusyOf self.old busy.old }
        requires more { length self.old.chronicle.ticks < most_ticks }
        requires room { self.old.is_roomy ≡ true }
        requires ready { CanCloseBusy A.first self.old busy.old ready }
        ensures chronicle { self.new.chronicle
            ≡ chronicle_next self.old (resting_but self.old busy.old) }
        ensures counts { self.new.counts ≡ map count_of (resting_but self.old busy.old) }
        ensures world { self.new.world ≡ record {
          map = map_next self.old (resting_but self.old busy.old);
          version = version_next A.first self.old;
        } }
        ensures seen { self.new.seen ≡ self.old.seen }
        ensures fates { result.0.items ≡ fates_next self.old (resting_but self.old busy.old) }
        ensures begun { AreBegun self.new.world result.1.items }
        ensures parts { All (IsPartOf self.new.world) busy.new }
        ensures kept { map count_of busy.new ≡ map count_of busy.old }
    {
        self.soundness();
        are_sectors(busy);
        let ReadyForBusy { lead, fresh, kept } = ready;
        let ReadyAtRest {
            version,
            fates,
            told,
            watch,
            changes,
            next,
            is_same_policy,
        } = lead;
        let before = self.archive.ticks().len() as u64;
        let sectors = self.archive.counts().len();
        let was = self.known.go_on(changes, version);
        let kept = renew_busy(busy, fresh, kept);
        self.archive.add(Tick {
            number: before + 1,
            version: was,
            windows: ClosedWindows::of_kept(sectors, kept),
            fates,
        });
        self.watch = Some(watch);
        let mark = self.stamper.mark(&self.known);
        self.marks.give_next(&next, is_same_policy, &mark);
        (told, next)
    }

    /// What holds of every keeper.
    pub fn soundness(&self)
        ensures { IsKeeper A.first A.all self.now }
    {
        let _ = &self.known;
    }

    /// How the world opened.
    pub fn opening(&self) -> &Opening
        ensures { result.now ≡ self.now.chronicle.opening }
    {
        self.archive.opening()
    }

    /// The chronicle with its counts, as it is read.
    pub fn archive(&self) -> &Archive
        ensures chronicle { result.now.chronicle ≡ self.now.chronicle }
        ensures counts { result.now.counts ≡ self.now.counts }
    {
        &self.archive
    }

    /// The map as the open windows began. Nothing is copied.
    pub fn base(&self) -> Frozen<'_>
        ensures { result ≡ self.now.world.map }
    {
        self.known.frozen()
    }

    /// The version that judges the open windows.
    pub fn version(&self) -> &Version
        ensures { result.now ≡ self.now.world.version }
    {
        self.known.version()
    }

    /// How many entries are closed in each sector, in order of their numbers.
    pub fn closed(&self) -> &[u64]
        ensures { result.now ≡ self.now.counts }
    {
        self.archive.counts()
    }

    /// The number of the version that the next tick fixes.
    pub fn next_number(&self) -> u64
        ensures { result ≡ length self.now.chronicle.ticks + 2 }
    {
        self.archive.ticks().len() as u64 + 2
    }

    /// The chronicle, and the version that judges the open windows. It takes no memory.
    pub fn into_parts(self) -> (Chronicle, Version)
        ensures chronicle { chronicle_in result.0 ≡ self.chronicle }
        ensures version { result.1 ≡ self.world.version }
    {
        let Keeper {
            archive,
            known,
            watch: _watch,
            view: _view,
            stamper: _stamper,
            marks: _marks,
        } = self;
        (archive.into_chronicle(), known.into_version())
    }

    // Whether the window of the sector began with what the keeper has of the sector of that number.
    fn has_begun(&self, at: usize, sector: &Sector, is_part: bool) -> bool
        requires there { at < A.all }
        requires part { is_part ≡ true → IsPartOf self.now.world sector.now }
        ensures { Decides result (BeganWith sector.now (known self.now at).base
            (known self.now at).version) }
    {
        self.soundness();
        if !is_part {
            return self.known.has(at, sector);
        }
        if !is_numbered(sector, self.known.version().tick) {
            return false;
        }
        is_at(sector, at)
    }

    // The first of all sectors that is not what the keeper has of it.
    fn first_torn(&self, sectors: &[Sector], are_parts: &[bool]) -> Option<u32>
        requires each { length sectors.now ≡ A.all }
        requires parts { AreParts self.now.world are_parts.now sectors.now }
        ensures { MatchOption result
            (AreKnown (known self.now) (map Some sectors.now))
            (IsTorn (known self.now) (map Some sectors.now)) }
    {
        self.soundness();
        for number in 0..self.known.bounds().sectors() {
            let at = number as usize;
            if !self.knows(at, &sectors[at], are_parts[at]) {
                return Some(number);
            }
        }
        None
    }

    // What is kept of the map as the windows began. It is kept no more then.
    fn take_watch(&mut self) -> Option<Watch>
        ensures same { self.new ≡ self.old }
        ensures watch { IfSome result (IsWatch self.old.world.map) }
    {
        self.watch.take()
    }

    // Plans the next tick of a world in which nothing was recorded since the last one. It uses up
    // what was kept of the map.
    fn planned<R: Threads + Sync, G: Gate + Sync>(
        &mut self,
        rt: &R,
        alloc: Global,
        workers: usize,
        gate: &G,
    ) -> Result<(Plan, Watch), AllocError>
        requires workers { (0 < workers) × (workers ≤ MAX_WORKERS) }
        ensures same { self.new ≡ self.old }
        ensures planned { IfOk result (IsPlanned self.old.world.version.policy self.old.world.map) }
    {
        let watch = self.take_watch();
        let map = self.known.frozen();
        plan_parts(
            rt,
            alloc,
            &map,
            self.known.version(),
            watch,
            &[],
            workers,
            gate,
        )
    }

    // Plans the next tick of a world in which nothing was recorded since the last one but in these
    // sectors. It uses up what was kept of the map.
    fn planned_but<R: Threads + Sync, G: Gate + Sync>(
        &mut self,
        rt: &R,
        alloc: Global,
        busy: &[Sector],
        workers: usize,
        gate: &G,
    ) -> Result<(Plan, Watch), AllocError>
        requires workers { (0 < workers) × (workers ≤ MAX_WORKERS) }
        requires known { AreBusyOf self.old busy.now }
        ensures same { self.new ≡ self.old }
        ensures planned { IfOk result (IsPlanned self.old.world.version.policy
            (map_now self.old (resting_but self.old busy.now))) }
    {
        self.soundness();
        are_sectors(busy);
        let watch = self.take_watch();
        let cells = cells_but(alloc, &self.known, busy)?;
        let written = written(alloc, busy)?;
        let map = Frozen::apart(self.known.bounds(), &cells);
        plan_parts(
            rt,
            alloc,
            &map,
            self.known.version(),
            watch,
            written.as_slice(),
            workers,
            gate,
        )
    }

    // What the next tick does by what was kept of the map, where all sectors are what the keeper
    // has of them.
    fn worked<R: Threads + Sync, G: Gate + Sync>(
        &self,
        rt: &R,
        alloc: Global,
        watch: Option<Watch>,
        sectors: &[Sector],
        workers: usize,
        gate: &G,
    ) -> Result<Work, AllocError>
        requires watch { IfSome watch (IsWatch self.now.world.map) }
        requires known { AreKnown (known self.now) (map Some sectors.now) }
        requires each { length sectors.now ≡ A.all }
        requires workers { (0 < workers) × (workers ≤ MAX_WORKERS) }
        ensures { IfOk result (λ work. IsPlanned self.now.world.version.policy
            (map_now self.now sectors.now) (work.plan, work.watch)) }
    {
        self.soundness();
        are_sectors(sectors);
        let cells = cells_of(alloc, sectors)?;
        let written = written(alloc, sectors)?;
        let map = Frozen::apart(self.known.bounds(), &cells);
        let (plan, watch) = plan_parts(
            rt,
            alloc,
            &map,
            self.known.version(),
            watch,
            written.as_slice(),
            workers,
            gate,
        )?;
        Ok(Work { plan, watch })
    }
}

// Whether the sector has this number, and nothing is recorded in its window.
fn is_quiet(sector: &Sector, at: usize) -> bool
    ensures { result ≡ true → IsQuietAt sector.now at }
{
    is_sector(sector);
    sector.entries().is_empty() && is_at(sector, at)
}

// Whether the sector is one of a world of this size.
fn has_size(sector: &Sector, bounds: Bounds) -> bool
    ensures { result ≡ true → sector.now.cells.bounds ≡ bounds }
{
    sector.cells().bounds() == bounds
}

// Whether the sector has this number.
fn is_at(sector: &Sector, at: usize) -> bool
    ensures { Decides result (sector.now.base.sector ≡ at) }
{
    number_of(sector) == at
}

// Whether the version that judges the sector's window has this number.
fn is_numbered(sector: &Sector, tick: u64) -> bool
    ensures { Decides result (sector.now.version.tick ≡ tick) }
{
    sector.version().tick == tick
}

// The world of this opening as its windows begin.
fn begun(opening: &Opening) -> Result<Known, AllocError>
    ensures { IfOk result (λ known. known ≡ record {
      map = opening.now.terrain;
      version = first_version opening.now.policy;
    }) }
{
    let version = first_version(opening)?;
    let (bounds, cells) = opening.terrain().try_clone()?.into_parts();
    Ok(Known::new(bounds, cells, version))
}

// The sectors of this opening in their first windows.
fn first_sectors(
    alloc: Global,
    opening: &Opening,
    version: &Version,
) -> Result<Vec<Sector>, AllocError>
    ensures { IfOk result (λ sectors.
        sectors.items ≡ map (opened_by version.now) opening.now.terrain.sectors) }
{
    let (_, cells) = opening.terrain().try_clone()?.into_parts();
    open_sectors(alloc, cells, version)
}

// The policy of the opening as a version.
fn first_version(opening: &Opening) -> Result<Version, AllocError>
    ensures { IfOk result (λ version. version ≡ first_version opening.now.policy) }
{
    Ok(Version {
        tick: 1,
        edits: 0,
        policy: opening.policy().try_clone()?,
    })
}
