ghost use Rattle.std.specs.Prelude.{◌≡◌, ◌≢◌, ◌⊎◌, ◌↔◌, ◌+◌, ◌<◌, [], true, false, if◌then◌else◌, Some, Err};
ghost use Rattle.vx_cells.specs.SectorCells.{holds};
ghost use Rattle.vx_sector.specs.Commands.{place_of};
ghost use Rattle.vx_sector.specs.SectorData.{seat_of};
ghost use Rattle.vx_sector.specs.Windows.{answer_of, count_of, is_recorded, sector_after};
ghost use Rattle.vx_record.specs.Calls.{lists_after};
ghost use Rattle.vx_keeper.specs.Marks.{IsBegun, IsPartOf, renumbered};
ghost use Rattle.vx_world.specs.Numbered.{IsSectorOf};

use crate::books::Books;
use crate::pass::Pass;
use crate::seats::Seats;
use std::alloc::{AllocError, Global};
use std::sync::ledger::Share;
use std::sync::{Mutex, Wait};
use vx_block::Part;
use vx_geom::{Bounds, Pos};
use vx_keeper::{Keeper, Marked, Places};
use vx_record::is_recorded;
use vx_sector::{Cmd, Fresh, Refusal, Reply};

/// A sector that is at home, with its share of the ledger, which is as many entries as it has, in
/// closed windows too.
// It is not `Drop`: whoever has one puts it home, or takes it apart.
pub struct Home<A: Places> {
    pub(crate) marked: Marked<A>,
    pub(crate) share: Share<A>,
    ghost one_part: { share.parts ≡ 1 },
    ghost counted: { share.amount ≡ count_of marked },
}

impl<A: Places> Home<A> {
    /// A sector at home, with its share.
    pub fn new(marked: Marked<A>, share: Share<A>) -> Home<A>
        requires one_part { share.parts ≡ 1 }
        requires counted { share.amount ≡ count_of marked }
        ensures { result.marked ≡ marked }
    {
        Home { marked, share }
    }

    /// The sector with its mark, and its share.
    pub fn into_parts(self) -> (Marked<A>, Share<A>)
        ensures marked { result.0 ≡ self.marked }
        ensures one_part { result.1.parts ≡ 1 }
        ensures counted { result.1.amount ≡ count_of self.marked }
    {
        let Home { marked, share } = self;
        (marked, share)
    }

    /// Whether it is known to rest: nothing is recorded in its window, which the keeper has marked
    /// or which is behind.
    pub fn rests(&self, keeper: &Keeper<A>) -> bool
        ensures { result ≡ true → self.now.marked.entries ≡ [] }
    {
        self.marked.sector().entries().is_empty()
            && (keeper.has_marked(&self.marked) || keeper.is_behind(&self.marked))
    }

    /// Has it begin its next window with this, as `Keeper::renew` does, where it is the sector of
    /// that number.
    pub fn renew(&mut self, at: usize, keeper: &Keeper<A>, fresh: Fresh)
        requires { IsBegun keeper.now.world at fresh }
    {
        keeper.renew(at, &mut self.marked, fresh);
    }

    /// Has it begin its window anew where that is behind, as `Keeper::begin_anew` does, where it is
    /// the sector of that number.
    pub fn begin_anew(
        &mut self,
        alloc: Global,
        at: usize,
        keeper: &Keeper<A>,
    ) -> Result<(), AllocError>
        requires { at < A.all }
    {
        keeper.begin_anew(alloc, at, &mut self.marked)
    }

    /// Gives it the number of the version that judges the open windows, as `Keeper::catch_up` does,
    /// and tells whether its window began with its part of what the keeper knows.
    pub fn catch_up(&mut self, keeper: &Keeper<A>) -> bool
        ensures part { result ≡ true → IsPartOf keeper.now.world self.new.marked }
        ensures caught { result ≡ true
            → self.new.marked ≡ renumbered self.old.marked keeper.now.world.version.tick }
        ensures kept { result ≡ false → self.new.marked ≡ self.old.marked }
    {
        keeper.catch_up(&mut self.marked)
    }

    /// Whether the sector holds the position.
    pub fn holds(&self, p: Pos) -> bool
        ensures { result ≡ holds self.now.marked.cells p }
    {
        self.marked.sector().cells().holds(p)
    }

    /// Whether it is the sector of that number in a world with these bounds.
    pub fn is_sector(&self, bounds: &Bounds, number: u32) -> bool
        ensures { (result ≡ true) ↔ IsSectorOf bounds.now number self.now.marked }
    {
        let cells = self.marked.sector().cells();
        cells.sector() == number && cells.bounds() == *bounds
    }

    /// Carries out a command at a position of the sector from the pass's seat, and puts it with its
    /// answer on the pass's list of that number, where the sector records it. Then it counts in both
    /// shares.
    // Inlined, so that its answer is not moved once more.
    #[inline(always)]
    pub fn act<B: Seats, R: Wait>(
        &mut self,
        rt: &R,
        books: &Mutex<Books<A, B>>,
        pass: &mut Pass<A, B>,
        at: usize,
        cmd: &Cmd,
    ) -> Result<Reply, Refusal>
        requires there { at < A.all }
        requires held { holds self.old.marked.cells (place_of cmd.now) ≡ true }
        ensures answer { (result ≡ answer_of self.old.marked (seat_of pass.old.seat) cmd.now)
            ⊎ (result ≡ Err Refusal.NoMemory) }
        ensures sector { self.new.marked
            ≡ sector_after self.old.marked (seat_of pass.old.seat) cmd.now result }
        ensures lists { pass.new.lists ≡ lists_after pass.old.lists at cmd.now result }
        ensures share { pass.new.share.amount
            ≡ pass.old.share.amount + (if is_recorded result then 1 else 0) }
        ensures seat { pass.new.seat ≡ pass.old.seat }
        ensures kept { is_recorded result ≡ false → (pass.new.lists ≡ pass.old.lists)
            × (pass.new.share ≡ pass.old.share) × (pass.new.reserve ≡ pass.old.reserve) }
        ensures inside { result ≢ Err Refusal.OutOfWorld }
    {
        let answer = self.marked.carry_out(&mut pass.lists, at, &pass.seat, cmd);
        if !is_recorded(&answer) {
            return answer;
        }
        pass.reserve
            .spend(rt, books, &mut self.share, &mut pass.share);
        answer
    }

    /// Puts a part down in base and cells, as `Sector::tamper` does.
    pub fn tamper(&mut self, p: Pos, part: Part) -> Result<bool, AllocError> {
        self.marked.tamper(p, part)
    }
}
