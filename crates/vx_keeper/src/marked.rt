ghost use Rattle.std.specs.Prelude.{◌≡◌, ◌≢◌, ◌⊎◌, ◌↔◌, ◌+◌, ◌<◌, length, [], true, if◌then◌else◌, Ok, Err, Some, IfOk};
ghost use Rattle.vx_block.specs.Part.{part_cell};
ghost use Rattle.vx_cells.specs.SectorCells.{holds};
ghost use Rattle.vx_sector.specs.Commands.{place_of};
ghost use Rattle.vx_sector.specs.SectorData.{seat_of};
ghost use Rattle.vx_sector.specs.Windows.{answer_of, is_full, is_recorded, renewed, sector_after, put_in, CanTamper};
ghost use Rattle.vx_windows.specs.Sectors.{IsOf};
ghost use Rattle.vx_record.specs.Calls.{calls_in, lists_after};
ghost use Rattle.vx_keeper.specs.Marks.{WorldData, IsMarkOf, IsPartOf, renumbered};

use crate::known::Known;
use crate::places::Places;
use std::alloc::AllocError;
use std::marker::Model;
use vx_block::Part;
use vx_geom::Pos;
use vx_record::Lists;
use vx_sector::{Cmd, Fresh, Refusal, Reply, Seat, Sector};
use vx_stamp::Mark;

/// A sector with the mark of a world of which its window began with its part.
pub struct Marked<A: Places> {
    sector: Sector,
    mark: Option<Mark<Known, A>>,
}

impl<A: Places> Model for Marked<A> {
    ghost use Rattle.vx_keeper.specs.Marks.{IsMarkOf};
    ghost use Rattle.vx_sector.specs.SectorData.{SectorData};

    ghost Value = { SectorData };

    ghost view = { λ a. a.sector };

    ghost invariant = { λ a. IsMarkOf a.mark a.sector };
}

// Written out, so that what is above this crate need not prove how its parts are let go.
impl<A: Places> Drop for Marked<A> {
    fn drop(self) {
        let Marked {
            sector: _sector,
            mark: _mark,
        } = self;
    }
}

impl<A: Places> Marked<A> {
    /// A sector with its mark, if it has one.
    pub fn new(sector: Sector, mark: Option<Mark<Known, A>>) -> Marked<A>
        requires { IsMarkOf mark sector }
        ensures { result ≡ sector }
    {
        Marked { sector, mark }
    }

    /// The sector.
    pub fn sector(&self) -> &Sector
        ensures { result.now ≡ self.now }
    {
        &self.sector
    }

    /// The sector without its mark.
    pub fn into_sector(self) -> Sector
        ensures { result ≡ self }
    {
        let Marked {
            sector,
            mark: _mark,
        } = self;
        sector
    }

    /// Carries out a command at a position of the sector and puts it on the list of that number, as
    /// `Lists::carry_out` does. The mark stays, since no command changes with what the window
    /// began.
    // Inlined, so that its answer is not moved once more.
    #[inline(always)]
    pub fn carry_out(
        &mut self,
        lists: &mut Lists,
        at: usize,
        seat: &Seat,
        cmd: &Cmd,
    ) -> Result<Reply, Refusal>
        requires there { at < length lists.old }
        requires held { holds self.old.cells (place_of cmd.now) ≡ true }
        ensures answer { (result ≡ answer_of self.old (seat_of seat.now) cmd.now)
            ⊎ (result ≡ Err Refusal.NoMemory) }
        ensures memory { (result ≡ answer_of self.old (seat_of seat.now) cmd.now)
            ⊎ (is_recorded (answer_of self.old (seat_of seat.now) cmd.now) ≡ true) }
        ensures sector { self.new ≡ sector_after self.old (seat_of seat.now) cmd.now result }
        ensures lists { lists.new ≡ lists_after lists.old at cmd.now result }
        ensures counted { calls_in lists.new
            ≡ calls_in lists.old + (if is_recorded result then 1 else 0) }
        ensures inside { result ≢ Err Refusal.OutOfWorld }
        ensures full { (result ≡ Err Refusal.HistoryFull) ↔ (is_full self.old ≡ true) }
    {
        lists.carry_out(at, &mut self.sector, seat, cmd)
    }

    /// Goes on with its window as it is under another number of the version, as
    /// `Sector::renumber` does. The mark stays.
    pub fn renumber(&mut self, tick: u64)
        ensures { self.new ≡ renumbered self.old tick }
    {
        self.sector.renumber(tick);
    }

    /// Begins the next window of a sector in which nothing was recorded, as `Sector::renew` does,
    /// with another mark, if there is one.
    pub fn renew(&mut self, fresh: Fresh, mark: Option<Mark<Known, A>>)
        requires of { IsOf self.old fresh }
        requires mark { IsMarkOf mark (renewed self.old fresh) }
        ensures { self.new ≡ renewed self.old fresh }
    {
        let _none = self.sector.renew(fresh);
        self.mark = mark;
    }

    /// Puts a part down in base and cells, as `Sector::tamper` does. The mark goes.
    pub fn tamper(&mut self, p: Pos, part: Part) -> Result<bool, AllocError>
        ensures when { IfOk result (λ done. (done ≡ true) ↔ CanTamper self.old p) }
        ensures tampered { result ≡ Ok true → self.new ≡ put_in self.old p (part_cell part) }
        ensures kept { result ≢ Ok true → self.new ≡ self.old }
    {
        self.mark = None;
        self.sector.tamper(p, part)
    }

    /// Whether the sector has the mark.
    pub fn has(&self, mark: &Mark<Known, A>) -> bool
        ensures { result ≡ true → (world : WorldData) → mark.now ≡ Some world
            → IsPartOf world self.now }
    {
        match &self.mark {
            Some(own) => own.same(mark),
            None => false,
        }
    }
}
