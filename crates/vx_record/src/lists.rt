ghost use Rattle.std.specs.Prelude.{◌≡◌, ◌≢◌, ◌<◌, ◌+◌, ◌⊎◌, ◌↔◌, [], true, false, length, replicate, slice_index_or, if◌then◌else◌, Err, IfOk};
ghost use Rattle.vx_cells.specs.SectorCells.{holds};
ghost use Rattle.vx_sector.specs.Acting.{rules_answer};
ghost use Rattle.vx_sector.specs.Commands.{place_of};
ghost use Rattle.vx_sector.specs.SectorData.{seat_of};
ghost use Rattle.vx_sector.specs.Windows.{answer_of, is_full, is_recorded, sector_after};
ghost use Rattle.vx_record.specs.Calls.{row_after};

use crate::call::Call;
use std::alloc::{AllocError, Global};
use std::marker::Model;
use vx_sector::{Cmd, MAX_ENTRIES, Refusal, Reply, Seat, Sector};

/// The recorded calls of a player: a list for each sector, oldest first.
#[derive(Drop)]
pub struct Lists {
    rows: Vec<Vec<Call>>,
}

impl Model for Lists {
    ghost use Rattle.std.specs.Prelude.{List, map};
    ghost use Rattle.vx_record.specs.declared.call.Call.{Call};

    ghost Value = { List (List Call) };

    ghost view = { λ a. map (λ row. row.items) a.rows.items };
}

impl Lists {
    ghost use Rattle.vx_record.specs.Calls.{calls_in, lists_after};

    /// An empty list for each of so many sectors.
    pub fn new(alloc: Global, sectors: usize) -> Result<Lists, AllocError>
        ensures { IfOk result (λ lists. lists ≡ replicate sectors []) }
    {
        let mut rows = Vec::with_capacity(alloc, sectors)?;
        for _ in 0..sectors {
            rows.push_reserved(Vec::new(alloc));
        }
        Ok(Lists { rows })
    }

    /// For how many sectors there is a list.
    pub fn len(&self) -> usize
        ensures { result ≡ length self.now }
    {
        self.rows.len()
    }

    /// The calls in the sector of that number, oldest first.
    pub fn calls(&self, at: usize) -> &[Call]
        requires { at < length self.now }
        ensures { result.now ≡ slice_index_or self.now at [] }
    {
        &self.rows[at]
    }

    /// Carries out a command in the sector of that number, and puts it with its answer at the end
    /// of that sector's list, where the sector records it. Both have room before either is changed.
    pub fn act(
        &mut self,
        at: usize,
        sector: &mut Sector,
        seat: Seat,
        cmd: Cmd,
    ) -> Result<Reply, Refusal>
        requires { at < length self.old }
        ensures answer { (result ≡ answer_of sector.old (seat_of seat) cmd)
            ⊎ (result ≡ Err Refusal.NoMemory) }
        // Memory is wanted only for a record.
        ensures memory { (result ≡ answer_of sector.old (seat_of seat) cmd)
            ⊎ (is_recorded (answer_of sector.old (seat_of seat) cmd) ≡ true) }
        ensures sector { sector.new ≡ sector_after sector.old (seat_of seat) cmd result }
        ensures lists { self.new ≡ lists_after self.old at cmd result }
        ensures counted { calls_in self.new
            ≡ calls_in self.old + (if is_recorded result then 1 else 0) }
        ensures outside { (result ≡ Err Refusal.OutOfWorld)
            ↔ (holds sector.old.cells (place_of cmd) ≡ false) }
        ensures full { (result ≡ Err Refusal.HistoryFull)
            ↔ ((holds sector.old.cells (place_of cmd) ≡ true) × (is_full sector.old ≡ true)) }
    {
        if !sector.cells().holds(cmd.place()) {
            return Err(Refusal::OutOfWorld);
        }
        self.carry_out(at, sector, &seat, &cmd)
    }

    /// Carries out a command at a position of the sector of that number, as `act` does.
    pub fn carry_out(
        &mut self,
        at: usize,
        sector: &mut Sector,
        seat: &Seat,
        cmd: &Cmd,
    ) -> Result<Reply, Refusal>
        requires there { at < length self.old }
        requires held { holds sector.old.cells (place_of cmd.now) ≡ true }
        ensures answer { (result ≡ answer_of sector.old (seat_of seat.now) cmd.now)
            ⊎ (result ≡ Err Refusal.NoMemory) }
        ensures memory { (result ≡ answer_of sector.old (seat_of seat.now) cmd.now)
            ⊎ (is_recorded (answer_of sector.old (seat_of seat.now) cmd.now) ≡ true) }
        ensures sector { sector.new ≡ sector_after sector.old (seat_of seat.now) cmd.now result }
        ensures lists { self.new ≡ lists_after self.old at cmd.now result }
        ensures counted { calls_in self.new
            ≡ calls_in self.old + (if is_recorded result then 1 else 0) }
        ensures inside { result ≢ Err Refusal.OutOfWorld }
        ensures full { (result ≡ Err Refusal.HistoryFull) ↔ (is_full sector.old ≡ true) }
    {
        if is_full(sector) {
            return Err(Refusal::HistoryFull);
        }
        act_into(&mut self.rows[at], sector, seat, cmd)
    }
}

// Carries out a command for which the sector has room, and puts it with its answer at the end of a
// list.
fn act_into(
    row: &mut Vec<Call>,
    sector: &mut Sector,
    seat: &Seat,
    cmd: &Cmd,
) -> Result<Reply, Refusal>
    requires held { holds sector.old.cells (place_of cmd.now) ≡ true }
    requires room { is_full sector.old ≡ false }
    ensures answer { (result ≡ rules_answer sector.old.version.policy sector.old.cells
        (seat_of seat.now) cmd.now) ⊎ (result ≡ Err Refusal.NoMemory) }
    ensures sector { sector.new ≡ sector_after sector.old (seat_of seat.now) cmd.now result }
    ensures row { row.new.items ≡ row_after row.old.items cmd.now result }
{
    let Ok(()) = row.reserve(1) else {
        return Err(Refusal::NoMemory);
    };
    match sector.carry_out(seat, cmd) {
        Ok((reply, copy)) => {
            row.push_reserved(Call {
                cmd: *cmd,
                answer: Ok(copy),
            });
            Ok(reply)
        }
        Err(refusal) => {
            if !refusal.leaves_trace() {
                return Err(refusal);
            }
            row.push_reserved(Call {
                cmd: *cmd,
                answer: Err(refusal),
            });
            Err(refusal)
        }
    }
}

// Whether the sector has no room in its record.
#[tactic(auto, unfolding(vx_sector::specs::Windows::is_full))]
fn is_full(sector: &Sector) -> bool
    ensures { result ≡ is_full sector.now }
{
    MAX_ENTRIES <= sector.count()
}

/// Whether an answer is recorded with its command.
pub fn is_recorded(answer: &Result<Reply, Refusal>) -> bool
    ensures { result ≡ is_recorded answer.now }
{
    !matches!(
        answer,
        Err(Refusal::OutOfWorld | Refusal::HistoryFull | Refusal::NoMemory)
    )
}
