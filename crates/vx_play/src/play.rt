ghost use Rattle.std.specs.Prelude.{◌≡◌, [], map, vec_len, IfOk, IfSome, OnOk, OnErr};
ghost use Rattle.vx_cells.specs.Wholes.{with_cells_on};
ghost use Rattle.vx_windows.specs.Sectors.{entries_in, entries_of};
ghost use Rattle.vx_still.specs.Watching.{IsWatch};
ghost use Rattle.vx_windows.specs.Writing.{map_before};

use crate::names::number_of;
use crate::tick_error::TickError;
use crate::ticked::Ticked;
use std::alloc::{AllocError, Global};
use std::marker::Model;
use vx_block::Cell;
use vx_board::{DeskError, DeskState, Edited, Naming};
use vx_cells::{Frozen, Whole};
use vx_geom::{Bounds, Pos};
use vx_policy::{Edit, Policy, Version};
use vx_region::Name;
use vx_sector::{Cmd, Entry, Refusal, Reply, Seat, Sector};
use vx_still::Watch;
use vx_tick::{Plan, plan_by};
use vx_windows::{
    MAX_PLAYERS, MAX_TICKS, all_fresh, cells_after, cells_of, open_sectors, renew_sectors, written,
};

/// A world at play: its sectors in their places, its players in order of their seats, and the desk
/// where its policy is edited.
// It keeps what is known of the map as the windows began, so that a tick looks only where it
// changed. Where that was lost, for want of memory in a tick, the next one looks everywhere.
pub struct Play<J: Naming> {
    bounds: Bounds,
    sectors: Vec<Sector>,
    version: Version,
    names: Vec<Name>,
    desk: DeskState<J>,
    ticks: u64,
    watch: Option<Watch>,
}

impl<J: Naming> Model for Play<J> {
    ghost use Rattle.std.specs.Prelude.{◌≤◌, vec_len, map, IfSome};
    ghost use Rattle.vx_name.specs.Texts.{texts};
    ghost use Rattle.vx_cells.specs.Maps.{AreSectors};
    ghost use Rattle.vx_play.specs.Plays.{PlayData};
    ghost use Rattle.vx_windows.specs.Sectors.{cells_of};
    ghost use Rattle.vx_windows.specs.Limits.{most_ticks};
    ghost use Rattle.vx_windows.specs.Writing.{map_before};
    ghost use Rattle.vx_windows.specs.declared.limits.TheConstants.{MAX_PLAYERS};
    ghost use Rattle.vx_still.specs.Watching.{IsWatch};

    ghost Value = { PlayData };

    ghost view = { λ a. record {
      sizes = a.bounds;
      sectors = a.sectors.items;
      version = a.version;
      names = texts a.names.items;
      first = J.first;
      accepted = a.desk;
      ticks = a.ticks;
    } };

    ghost invariant = { λ a. (vec_len a.names ≤ MAX_PLAYERS) × (a.ticks ≤ most_ticks)
        × AreSectors a.bounds (map cells_of a.sectors.items)
        × IfSome a.watch (IsWatch (map_before a.bounds a.sectors.items)) };
}

// Written out, so that what is above this crate need not prove how its parts are let go.
impl<J: Naming> Drop for Play<J> {
    fn drop(self) {
        let Play {
            bounds: _,
            sectors: _sectors,
            version: _version,
            names: _names,
            desk: _desk,
            ticks: _,
            watch: _watch,
        } = self;
    }
}

impl<J: Naming> Play<J> {
    ghost use Rattle.std.specs.Prelude.{◌≢◌, ◌⊎◌, ◌<◌, ◌≤◌, ◌+◌, ◌++◌, ◌∷◌, ◌↔◌, [], Err, length, option_map};
    ghost use Rattle.vx_board.specs.Accepted.{IsAnswer};
    ghost use Rattle.vx_policy.specs.Asked.{asked};
    ghost use Rattle.vx_geom.specs.Sizes.{sector_of};
    ghost use Rattle.vx_name.specs.Texts.{texts};
    ghost use Rattle.vx_sector.specs.SectorData.{seat_of};
    ghost use Rattle.vx_play.specs.declared.tick_error.TickError.TheVariants.{HistoryFull};
    ghost use Rattle.vx_play.specs.Plays.{IsWorld, answered, calls, opened, policy_of, seat_named, seat_at, next_version, map_of, ticked, next_map, next_fates};
    ghost use Rattle.vx_windows.specs.Sectors.{all_renewed};
    ghost use Rattle.vx_windows.specs.Limits.{most_ticks};

    /// The world of this terrain under this policy, with nothing done yet.
    pub fn open(
        alloc: Global,
        terrain: Whole,
        names: Vec<Name>,
        policy: Policy,
    ) -> Result<Play<J>, AllocError>
        requires named { policy ≡ J.first }
        requires seats { vec_len names ≤ MAX_PLAYERS }
        ensures { IfOk result (λ play. play ≡ opened J.first terrain (texts names.items)) }
    {
        let (bounds, cells) = terrain.into_parts();
        let desk = DeskState::new(alloc, policy);
        let version = desk.fix(1)?;
        let sectors = open_sectors(alloc, cells, &version)?;
        Ok(Play {
            bounds,
            sectors,
            version,
            names,
            desk,
            ticks: 0,
            watch: None,
        })
    }

    /// The seat of the player of that name.
    #[tactic(auto, unfolding(crate::specs::Plays::seat_named))]
    pub fn seat(&self, name: &Name) -> Option<Seat>
        ensures { option_map seat_of result ≡ seat_named self.now name.now.text.bytes }
    {
        let number = number_of(&self.names, name)?;
        Some(Seat {
            number: number as u8,
            name: *name,
        })
    }

    /// The seat of the player of that number, counted from 0.
    #[tactic(auto, unfolding(crate::specs::Plays::seat_at))]
    pub fn seat_at(&self, number: u8) -> Option<Seat>
        ensures { option_map seat_of result ≡ seat_at self.now number }
    {
        let name = *self.names.get(usize::from(number))?;
        Some(Seat { number, name })
    }

    /// Carries out a command in the sector of its position, by the rules of docs/RULES.md; refused
    /// where it is outside the world.
    #[tactic(auto, unfolding(crate::specs::Plays::answered, crate::specs::Plays::sector_asked))]
    pub fn act(&mut self, seat: Seat, cmd: Cmd) -> Result<Reply, Refusal>
        ensures answer { (result ≡ (answered self.old (seat_of seat) cmd).0)
            ⊎ (result ≡ Err Refusal.NoMemory) }
        ensures after { result ≢ Err Refusal.NoMemory
            → self.new ≡ record self.old { sectors = (answered self.old (seat_of seat) cmd).1 } }
    {
        let Some(number) = self.bounds.sector_of(cmd.place()) else {
            return Err(Refusal::OutOfWorld);
        };
        let Some(sector) = self.sectors.get_mut(number as usize) else {
            return Err(Refusal::OutOfWorld);
        };
        sector.act(seat, cmd)
    }

    /// Accepts an edit, which counts from the next tick on, or refuses it. A refusal, for want of
    /// memory too, leaves all as it was.
    pub fn edit(&mut self, alloc: Global, edit: Edit) -> Result<Edited, DeskError>
        ensures answer { IsAnswer (policy_of self.old) (length self.old.accepted) (asked edit)
            result }
        ensures ok { OnOk result
            (self.new ≡ record self.old { accepted = self.old.accepted ++ asked edit ∷ [] }) }
        ensures err { OnErr result (self.new ≡ self.old) }
    {
        self.desk.apply(alloc, edit)
    }

    /// Makes a tick, judged by the version that judged the windows so far, and begins the next
    /// window of each sector, judged by the policy after the edits so far. It hands out the records
    /// of the windows that it closes, and the fates of the moves that pistons asked for. Where it
    /// fails, for want of memory too, nothing is changed.
    pub fn tick(&mut self, alloc: Global) -> Result<Ticked, TickError>
        ensures ok { OnOk result (self.new ≡ ticked self.old) }
        ensures err { OnErr result (self.new ≡ self.old) }
        ensures windows { IfOk result (λ done.
            map entries_in done.windows.items ≡ map entries_of self.old.sectors) }
        ensures fates { IfOk result (λ done. done.fates.items ≡ next_fates self.old) }
        ensures full { (result ≡ Err HistoryFull) ↔ (most_ticks ≤ self.old.ticks) }
    {
        if MAX_TICKS <= self.ticks {
            return Err(TickError::HistoryFull);
        }
        let watch = self.take_watch();
        let (plan, watch) = self.plan(alloc, watch)?;
        let windows = self.renew(alloc, plan.puts.as_slice(), watch)?;
        Ok(Ticked {
            windows,
            fates: plan.fates,
        })
    }

    // What is kept of the map as the windows began. It is kept no more then.
    fn take_watch(&mut self) -> Option<Watch>
        ensures same { self.new ≡ self.old }
        ensures watch { IfSome result (IsWatch (map_before self.old.sizes self.old.sectors)) }
    {
        self.watch.take()
    }

    // What the next tick does by this, and what is kept of the map after it.
    fn plan(&self, alloc: Global, watch: Option<Watch>) -> Result<(Plan, Watch), AllocError>
        requires { IfSome watch (IsWatch (map_before self.now.sizes self.now.sectors)) }
        ensures puts { IfOk result (λ done.
            next_map self.now ≡ with_cells_on (map_of self.now) done.0.puts.items) }
        ensures fates { IfOk result (λ done. done.0.fates.items ≡ next_fates self.now) }
        ensures watch { IfOk result (λ done. IsWatch (next_map self.now) done.1) }
    {
        let cells = cells_of(alloc, &self.sectors)?;
        let written = written(alloc, &self.sectors)?;
        let map = Frozen::apart(self.bounds, &cells);
        plan_by(alloc, &map, &self.version, watch, written.as_slice())
    }

    // Begins the next window of each sector over its cells with these put down, judged by the
    // policy after the edits so far, and hands out the records of the windows that this closes. The
    // next tick goes by what is kept of the map after this one.
    fn renew(
        &mut self,
        alloc: Global,
        puts: &[(Pos, Cell)],
        watch: Watch,
    ) -> Result<Vec<Vec<Entry>>, AllocError>
        requires watch { IsWatch (with_cells_on (map_of self.old) puts.now) watch }
        requires more { self.old.ticks < most_ticks }
        ensures ok { OnOk result (self.new ≡ record self.old {
          sectors = all_renewed (next_version self.old) self.old.sectors
              (with_cells_on (map_of self.old) puts.now).sectors;
          version = next_version self.old;
          ticks = self.old.ticks + 1;
        }) }
        ensures err { OnErr result (self.new ≡ self.old) }
        ensures windows { IfOk result (λ windows.
            map entries_in windows.items ≡ map entries_of self.old.sectors) }
    {
        let version = self.desk.fix(self.ticks + 2)?;
        let changes = cells_after(alloc, self.bounds, &self.sectors, puts)?;
        let fresh = all_fresh(alloc, &self.sectors, &changes, &version, false)?;
        let room = Vec::with_capacity(alloc, self.sectors.len())?;
        let windows = renew_sectors(&mut self.sectors, fresh, version.tick, room);
        self.version = version;
        self.watch = Some(watch);
        self.ticks += 1;
        Ok(windows)
    }

    /// What holds of every world at play: it has each sector of its size in its place.
    pub fn soundness(&self)
        ensures { IsWorld self.now }
    {
        let _ = &self.bounds;
    }

    /// The number of the sector that holds the position; none outside the world.
    pub fn sector_of(&self, p: Pos) -> Option<u32>
        ensures { result ≡ sector_of self.now.sizes p }
    {
        self.bounds.sector_of(p)
    }

    /// The sectors in order of their numbers.
    pub fn sectors(&self) -> &[Sector]
        ensures { result.now ≡ self.now.sectors }
    {
        &self.sectors
    }

    /// The sectors in order of their numbers. It takes no memory.
    pub fn into_sectors(self) -> Vec<Sector>
        ensures { result.items ≡ self.sectors }
    {
        let Play {
            bounds: _,
            sectors,
            version: _version,
            names: _names,
            desk: _desk,
            ticks: _,
            watch: _watch,
        } = self;
        sectors
    }

    /// The version that judges the commands of the windows and the machines of the next tick.
    pub fn version(&self) -> &Version
        ensures { result.now ≡ self.now.version }
    {
        &self.version
    }

    /// The edits that were accepted, in their order.
    pub fn accepted(&self) -> &[Edit]
        ensures { map asked result.now ≡ self.now.accepted }
    {
        self.desk.accepted()
    }

    /// How many ticks there were.
    pub fn ticks(&self) -> u64
        ensures { result ≡ self.now.ticks }
    {
        self.ticks
    }

    /// How many commands were recorded, in all sectors and windows.
    pub fn calls(&self) -> u64
        ensures { result ≡ calls self.now }
    {
        let mut calls = 0;
        for sector in &self.sectors {
            calls += sector.count();
        }
        calls
    }
}
