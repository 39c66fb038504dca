ghost use Rattle.std.specs.Prelude.{◌≡◌, ◌⊎◌, ◌<◌, true, [], map, length, Ok, Err, IfOk, IfErr, OnOk, OnErr};
ghost use Rattle.vx_store.specs.declared.stack.TheConstants.{SLOTS};
ghost use Rattle.vx_store.specs.Codes.{is_chest};
ghost use Rattle.vx_cells.specs.SectorCells.{IsSlot, holds, cell_at, with_cell, with_slot};
ghost use Rattle.vx_sector.specs.Acting.{rules_answer, applied, effect_of, Fits};
ghost use Rattle.vx_sector.specs.Commands.{place_of};
ghost use Rattle.vx_sector.specs.SectorData.{seat_of, entry_of};
ghost use Rattle.vx_sector.specs.Windows.{told, window_after};

use crate::acting::outcome_of;
use crate::cmd::Cmd;
use crate::effect::Effect;
use crate::entry::Entry;
use crate::judge::Judge;
use crate::refusal::Refusal;
use crate::reply::Reply;
use crate::seat::Seat;
use std::alloc::{AllocError, Global};
use std::marker::Model;
use vx_block::Cell;
use vx_cells::{Cells, Slot};
use vx_geom::Pos;
use vx_policy::Version;

/// A window of a sector: its cells as it began and as they are, the version of the policy that
/// judges its commands, and their record.
#[derive(Drop)]
pub(crate) struct Window {
    pub(crate) base: Cells,
    pub(crate) cells: Cells,
    pub(crate) judge: Judge,
    pub(crate) entries: Vec<Entry>,
}

impl Model for Window {
    ghost use Rattle.std.specs.Prelude.{map};
    ghost use Rattle.vx_sector.specs.SectorData.{WindowData, entry_of};

    ghost Value = { WindowData };

    ghost view = { λ a. record {
      base = a.base;
      cells = a.cells;
      version = a.judge;
      entries = map entry_of a.entries.items;
    } };
}

impl Window {
    /// A window over these cells, judged by a copy of this version, with nothing recorded. The base
    /// is a copy, which shares what they hold.
    pub(crate) fn new(alloc: Global, cells: Cells, version: &Version) -> Result<Window, AllocError>
        ensures { IfOk result (λ window. window ≡ record {
          base = cells;
          cells = cells;
          version = version.now;
          entries = [];
        }) }
    {
        Ok(Window {
            base: cells.try_clone()?,
            cells,
            judge: Judge::new(alloc, version)?,
            entries: Vec::new(alloc),
        })
    }

    /// The cells as it began.
    pub(crate) fn base(&self) -> &Cells
        ensures { result.now ≡ self.now.base }
    {
        &self.base
    }

    /// The cells as they are.
    pub(crate) fn cells(&self) -> &Cells
        ensures { result.now ≡ self.now.cells }
    {
        &self.cells
    }

    /// The version that judges its commands.
    pub(crate) fn version(&self) -> &Version
        ensures { result.now ≡ self.now.version }
    {
        self.judge.version()
    }

    /// Its record, oldest first.
    pub(crate) fn entries(&self) -> &[Entry]
        ensures { map entry_of result.now ≡ self.now.entries }
    {
        &self.entries
    }

    /// How many commands it has recorded.
    pub(crate) fn count(&self) -> u64
        ensures { result ≡ length self.now.entries }
    {
        self.entries.len() as u64
    }

    /// Goes on under another number, judged by the same policy.
    pub(crate) fn go_on(&mut self, tick: u64)
        ensures { self.new ≡ record self.old {
          version = record self.old.version { tick = tick };
        } }
    {
        self.judge.go_on(tick);
    }

    /// Goes on over these cells, as if it had begun with their copy.
    pub(crate) fn put_in(&mut self, base: Cells, cells: Cells)
        ensures { self.new ≡ record self.old { base = base; cells = cells } }
    {
        self.base = base;
        self.cells = cells;
    }

    /// Carries out a command at a position of the sector, and puts it with its answer at the end of
    /// the record. Where memory is wanting nothing is done. The reply comes with a copy, as
    /// `Sector::carry_out` tells.
    pub(crate) fn carry_out(&mut self, seat: &Seat, cmd: &Cmd) -> Result<(Reply, Reply), Refusal>
        requires held { holds self.old.cells (place_of cmd.now) ≡ true }
        ensures answer { (told result
            ≡ rules_answer self.old.version.policy self.old.cells (seat_of seat.now) cmd.now)
            ⊎ (told result ≡ Err Refusal.NoMemory) }
        ensures copy { IfOk result (λ replies. replies.1 ≡ replies.0) }
        ensures after { self.new ≡ window_after self.old (seat_of seat.now) cmd.now (told result) }
    {
        let alloc = *self.entries.allocator();
        self.cells.soundness();
        match outcome_of(alloc, &mut self.judge, &self.cells, seat, cmd) {
            Ok((reply, effect)) => self.grant(seat, cmd, reply, effect),
            Err(refusal) => self.refuse(seat, cmd, refusal),
        }
    }

    // Does what a command does that nothing stands against, and puts it with its reply at the end
    // of the record. Both copies of the reply are made before.
    fn grant(
        &mut self,
        seat: &Seat,
        cmd: &Cmd,
        reply: Reply,
        effect: Effect,
    ) -> Result<(Reply, Reply), Refusal>
        requires held { holds self.old.cells (place_of cmd.now) ≡ true }
        requires effect { effect ≡ effect_of self.old.cells cmd.now }
        requires fits { Fits self.old.cells (place_of cmd.now) effect }
        ensures answer { (told result ≡ Ok reply) ⊎ (told result ≡ Err Refusal.NoMemory) }
        ensures copy { IfOk result (λ replies. replies.1 ≡ replies.0) }
        ensures after { self.new ≡ window_after self.old (seat_of seat.now) cmd.now (told result) }
    {
        let Ok(recorded) = reply.try_clone() else {
            return Err(Refusal::NoMemory);
        };
        let Ok(copy) = reply.try_clone() else {
            return Err(Refusal::NoMemory);
        };
        self.entries.reserve(1).map_err(|_| Refusal::NoMemory)?;
        apply(&mut self.cells, cmd.place(), effect)?;
        self.entries.push_reserved(Entry {
            seat: *seat,
            cmd: *cmd,
            answer: Ok(recorded),
        });
        Ok((reply, copy))
    }

    // Puts a command with its refusal at the end of the record, unless that leaves no trace.
    fn refuse(
        &mut self,
        seat: &Seat,
        cmd: &Cmd,
        refusal: Refusal,
    ) -> Result<(Reply, Reply), Refusal>
        ensures answer { (result ≡ Err refusal) ⊎ (result ≡ Err Refusal.NoMemory) }
        ensures after { self.new ≡ window_after self.old (seat_of seat.now) cmd.now (told result) }
    {
        if !refusal.leaves_trace() {
            return Err(refusal);
        }
        self.entries.reserve(1).map_err(|_| Refusal::NoMemory)?;
        self.entries.push_reserved(Entry {
            seat: *seat,
            cmd: *cmd,
            answer: Err(refusal),
        });
        Err(refusal)
    }

    /// Its record alone, oldest first. It takes no memory.
    pub(crate) fn into_entries(self) -> Vec<Entry>
        ensures { map entry_of result.items ≡ self.entries }
    {
        let Window {
            base: _base,
            cells: _cells,
            judge: _judge,
            entries,
        } = self;
        entries
    }
}

// Does to the cells what a command does at a position of theirs.
fn apply(cells: &mut Cells, p: Pos, effect: Effect) -> Result<(), Refusal>
    requires held { holds cells.old p ≡ true }
    requires fits { Fits cells.old p effect }
    ensures ok { OnOk result (cells.new ≡ applied cells.old p effect) }
    ensures err { OnErr result (cells.new ≡ cells.old) }
    ensures memory { IfErr result (λ refusal. refusal ≡ Refusal.NoMemory) }
{
    match effect {
        Effect::Same => Ok(()),
        Effect::NewCell(cell) => put_down(cells, p, cell),
        Effect::NewSlot(slot, content) => put_slot(cells, p, slot, content),
    }
}

// Puts a cell down at a position of the sector.
fn put_down(cells: &mut Cells, p: Pos, cell: Cell) -> Result<(), Refusal>
    requires { holds cells.old p ≡ true }
    ensures ok { OnOk result (cells.new ≡ with_cell cells.old p cell) }
    ensures err { OnErr result (cells.new ≡ cells.old) }
    ensures memory { IfErr result (λ refusal. refusal ≡ Refusal.NoMemory) }
{
    cells.set(p, cell).map_err(|_| Refusal::NoMemory)
}

// Puts something else into a slot of the chest at a position of the sector.
fn put_slot(cells: &mut Cells, p: Pos, slot: u8, content: Slot) -> Result<(), Refusal>
    requires held { holds cells.old p ≡ true }
    requires chest { is_chest (cell_at cells.old p) ≡ true }
    requires slot { slot < SLOTS }
    requires content { IsSlot content }
    ensures ok { OnOk result (cells.new ≡ with_slot cells.old p slot content) }
    ensures err { OnErr result (cells.new ≡ cells.old) }
    ensures memory { IfErr result (λ refusal. refusal ≡ Refusal.NoMemory) }
{
    cells
        .set_slot(p, slot, content)
        .map_err(|_| Refusal::NoMemory)
}
