ghost use Rattle.std.specs.Prelude.{◌≡◌, ◌≢◌, ◌≤◌, ◌<◌, ◌⊎◌, ◌↔◌, true, false, [], box_value, map, Ok, Err, IfOk, IfErr, OnOk, OnErr};
ghost use Rattle.vx_block.specs.Part.{part_cell};
ghost use Rattle.vx_cells.specs.SectorCells.{holds};
ghost use Rattle.vx_sector.specs.Acting.{rules_answer};
ghost use Rattle.vx_sector.specs.Commands.{place_of};
ghost use Rattle.vx_sector.specs.SectorData.{seat_of, entry_of};
ghost use Rattle.vx_sector.specs.Windows.{IsWindow, cells_after, most_entries, count_of, is_recorded, is_full, put_in, told, CanTamper};

use crate::cmd::Cmd;
use crate::entry::Entry;
use crate::fresh::Fresh;
use crate::refusal::Refusal;
use crate::reply::Reply;
use crate::seat::Seat;
use crate::window::Window;
use std::alloc::AllocError;
use std::marker::Model;
use std::mem;
use vx_block::Part;
use vx_cells::Cells;
use vx_geom::Pos;
use vx_policy::Version;

/// How many commands a sector records at most, in all its windows.
pub const MAX_ENTRIES: u64 = 1_099_511_627_776;

/// One sector of the world: its cells, the version of the policy that judges the commands of its
/// window, and their record.
pub struct Sector {
    // In a place of its own, so that a tick that takes sectors out and puts them back moves little.
    window: Box<Window>,
    closed: u64,
}

impl Model for Sector {
    ghost use Rattle.std.specs.Prelude.{box_value};
    ghost use Rattle.vx_sector.specs.SectorData.{SectorData, WindowData, sector_of};
    ghost use Rattle.vx_sector.specs.Windows.{IsSector};

    ghost Value = { SectorData };

    ghost view = { λ a. sector_of (box_value {X = WindowData} a.window) a.closed };

    ghost invariant = { λ a.
        IsSector (sector_of (box_value {X = WindowData} a.window) a.closed) };
}

// Written out, so that what is above this crate need not prove how its parts are let go.
impl Drop for Sector {
    fn drop(self) {
        let Sector {
            window: _window,
            closed: _,
        } = self;
    }
}

impl Sector {
    ghost use Rattle.vx_sector.specs.Windows.{answer_of, recorded, first_window, renewed, sector_after};

    /// A sector in its first window. It takes no memory.
    pub fn new(fresh: Fresh) -> Sector
        ensures { result ≡ first_window fresh }
    {
        let Fresh { window } = fresh;
        Sector { window, closed: 0 }
    }

    /// Begins the next window, and hands out the record of the one that it closes. It takes no
    /// memory.
    #[tactic(auto, unfolding(crate::specs::Windows::renewed))]
    pub fn renew(&mut self, fresh: Fresh) -> Vec<Entry>
        requires { (fresh.cells.bounds ≡ self.old.cells.bounds)
            × (fresh.cells.sector ≡ self.old.cells.sector) }
        ensures entries { map entry_of result.items ≡ self.old.entries }
        ensures next { self.new ≡ renewed self.old fresh }
    {
        let Fresh { window } = fresh;
        self.closed += self.window.count();
        entries_of(mem::replace(&mut self.window, window))
    }

    /// Begins the next window of a sector in which nothing was recorded, over its cells as they
    /// are, judged by the same policy under the number of the next version. It takes no memory, and
    /// what was kept of decisions stays, which that policy makes as before.
    #[tactic(auto, unfolding(crate::specs::Windows::renewed))]
    pub fn go_on(&mut self, tick: u64)
        requires { self.old.entries ≡ [] }
        ensures { self.new ≡ renewed self.old (record {
          cells = self.old.cells;
          version = record self.old.version { tick = tick };
        }) }
    {
        self.window.go_on(tick);
    }

    /// Goes on with its window as it is under another number of the version, which is by the same
    /// policy. It takes no memory.
    pub fn renumber(&mut self, tick: u64)
        ensures { self.new
            ≡ record self.old { version = record self.old.version { tick = tick } } }
    {
        self.window.go_on(tick);
    }

    /// Puts a part down in base and cells, as no rule does: it is there for tests. A chest begins
    /// empty. It says whether it did: where the position is of the sector and nothing is recorded
    /// in its window.
    pub fn tamper(&mut self, p: Pos, part: Part) -> Result<bool, AllocError>
        ensures when { IfOk result (λ done. (done ≡ true) ↔ CanTamper self.old p) }
        ensures tampered { result ≡ Ok true → self.new ≡ put_in self.old p (part_cell part) }
        ensures kept { result ≢ Ok true → self.new ≡ self.old }
    {
        if !self.can_tamper(p) {
            return Ok(false);
        }
        let mut changed = self.cells().try_clone()?;
        changed.set(p, part.cell())?;
        self.window.put_in(changed.try_clone()?, changed);
        Ok(true)
    }

    /// The cells as the window began.
    pub fn base(&self) -> &Cells
        ensures { result.now ≡ self.now.base }
    {
        self.window.base()
    }

    /// The cells as they are: as the window began, and then changed by its entries.
    pub fn cells(&self) -> &Cells
        ensures cells { result.now ≡ self.now.cells }
        ensures after { self.now.cells ≡ cells_after self.now.base self.now.entries }
    {
        self.window.cells()
    }

    /// The version that judges the commands of this window.
    pub fn version(&self) -> &Version
        ensures { result.now ≡ self.now.version }
    {
        self.window.version()
    }

    /// The record of this window, oldest first: each with the answer that the rules gave on the
    /// cells as they were then.
    pub fn entries(&self) -> &[Entry]
        ensures entries { map entry_of result.now ≡ self.now.entries }
        ensures window { IsWindow self.now.version.policy self.now.base self.now.entries }
    {
        self.window.entries()
    }

    /// How many commands were recorded in the windows before.
    pub fn closed(&self) -> u64
        ensures { result ≡ self.now.closed }
    {
        self.closed
    }

    /// How many commands were recorded, in closed windows too.
    pub fn count(&self) -> u64
        ensures value { result ≡ count_of self.now }
        ensures most { count_of self.now ≤ most_entries }
    {
        self.window.count() + self.closed
    }

    /// The record of this window, oldest first. It takes no memory.
    pub fn into_entries(self) -> Vec<Entry>
        ensures { map entry_of result.items ≡ self.entries }
    {
        let Sector { window, closed: _ } = self;
        entries_of(window)
    }

    /// Carries out a command and records it with its answer, or refuses it by the first cause that
    /// stands against it. A refusal leaves the cells as they were; one for a position outside the
    /// sector, for a full record or for want of memory is not recorded.
    // Inlined, so that its answer is not moved once more.
    #[inline(always)]
    pub fn act(&mut self, seat: Seat, cmd: Cmd) -> Result<Reply, Refusal>
        ensures answer { (result ≡ answer_of self.old (seat_of seat) cmd)
            ⊎ (result ≡ Err Refusal.NoMemory) }
        // Memory is wanted only for a record.
        ensures memory { (result ≡ answer_of self.old (seat_of seat) cmd)
            ⊎ (is_recorded (answer_of self.old (seat_of seat) cmd) ≡ true) }
        ensures after { self.new ≡ sector_after self.old (seat_of seat) cmd result }
        ensures outside { (result ≡ Err Refusal.OutOfWorld)
            ↔ (holds self.old.cells (place_of cmd) ≡ false) }
        ensures full { (result ≡ Err Refusal.HistoryFull)
            ↔ ((holds self.old.cells (place_of cmd) ≡ true) × (is_full self.old ≡ true)) }
    {
        if !self.window.cells().holds(cmd.place()) {
            return Err(Refusal::OutOfWorld);
        }
        if self.is_full() {
            return Err(Refusal::HistoryFull);
        }
        told(self.carry_out(&seat, &cmd))
    }

    /// Carries out a command at a position of the sector, where there is room for its record, as
    /// `act` does. The reply comes with a copy, so that who keeps it elsewhere too needs no memory
    /// for it after the command is carried out.
    #[tactic(auto, unfolding(crate::specs::Windows::sector_after))]
    pub fn carry_out(&mut self, seat: &Seat, cmd: &Cmd) -> Result<(Reply, Reply), Refusal>
        requires room { count_of self.old < most_entries }
        requires held { holds self.old.cells (place_of cmd.now) ≡ true }
        ensures answer { (told result
            ≡ rules_answer self.old.version.policy self.old.cells (seat_of seat.now) cmd.now)
            ⊎ (told result ≡ Err Refusal.NoMemory) }
        ensures copy { IfOk result (λ replies. replies.1 ≡ replies.0) }
        ensures after { self.new ≡ sector_after self.old (seat_of seat.now) cmd.now (told result) }
    {
        self.window.carry_out(seat, cmd)
    }

    // Whether a part may be put down at a position in base and cells.
    fn can_tamper(&self, p: Pos) -> bool
        ensures { (result ≡ true) ↔ CanTamper self.now p }
    {
        self.window.count() == 0 && self.window.cells().holds(p)
    }

    // Whether as many commands were recorded as may be.
    #[tactic(auto, unfolding(crate::specs::Windows::is_full))]
    fn is_full(&self) -> bool
        ensures { result ≡ is_full self.now }
    {
        MAX_ENTRIES <= self.count()
    }
}

// The answer alone, where its reply comes with a copy.
fn told(answer: Result<(Reply, Reply), Refusal>) -> Result<Reply, Refusal>
    ensures { result ≡ told answer }
{
    let (reply, _copy) = answer?;
    Ok(reply)
}

// The record of a window, in a place of its own.
fn entries_of(window: Box<Window>) -> Vec<Entry>
    ensures { map entry_of result.items ≡ (box_value window).entries }
{
    Box::into_inner(window).into_entries()
}
