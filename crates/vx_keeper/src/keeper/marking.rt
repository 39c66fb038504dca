//! What a keeper says of a sector by its mark, and the windows that sectors begin.
ghost use Rattle.std.specs.Prelude.{◌≡◌, ◌<◌, ◌⊎◌, true, false, OnErr};
ghost use Rattle.vx_sector.specs.Windows.{count_of};
ghost use Rattle.vx_keeper.specs.Marks.{IsBegun, IsMarkOf, IsPartOf, renumbered};

use super::{Keeper, has_size, is_quiet};
use crate::busy::number_of;
use crate::known::Known;
use crate::marked::Marked;
use crate::places::Places;
use std::alloc::{AllocError, Global};
use vx_sector::{Fresh, Sector};
use vx_stamp::Mark;

impl<A: Places> Keeper<A> {
    /// Whether the sector is marked as one whose window began with its part of what the keeper
    /// knows, though it may be under another number. It costs the same whatever the sector holds;
    /// without the mark it may have begun so all the same.
    pub fn has_marked(&self, marked: &Marked<A>) -> bool
        ensures { result ≡ true → IsPartOf self.now.world marked.now }
    {
        match self.marks.of(number_of(marked.sector())) {
            Some(mark) => marked.has(&mark),
            None => false,
        }
    }

    /// The mark for a sector whose window began with its part of what the keeper knows.
    pub fn mark_for(&self, sector: &Sector) -> Option<Mark<Known, A>>
        requires { IsPartOf self.now.world sector.now }
        ensures { IsMarkOf result sector.now }
    {
        self.marks.of(number_of(sector))
    }

    /// Gives a sector the number of the version that judges the open windows, where it is marked as
    /// one whose window began with its part of what the keeper knows, and tells whether it is.
    pub fn catch_up(&self, marked: &mut Marked<A>) -> bool
        ensures part { result ≡ true → IsPartOf self.now.world marked.new }
        ensures caught { result ≡ true
            → marked.new ≡ renumbered marked.old self.now.world.version.tick }
        ensures kept { result ≡ false → marked.new ≡ marked.old }
        ensures count { count_of marked.new ≡ count_of marked.old }
    {
        if !self.has_marked(marked) {
            return false;
        }
        marked.renumber(self.version().tick);
        true
    }

    /// Has the sector of that number begin its next window with this, and with its mark, if nothing
    /// is recorded in its window and it is of the size of the world. Else it stays as it is. No
    /// clause tells which of the two: one that stays is torn to the next tick.
    pub fn renew(&self, at: usize, marked: &mut Marked<A>, fresh: Fresh)
        requires { IsBegun self.now.world at fresh }
        ensures led { (marked.new ≡ marked.old) ⊎ IsPartOf self.now.world marked.new }
        ensures count { count_of marked.new ≡ count_of marked.old }
    {
        self.soundness();
        if !is_quiet(marked.sector(), at) || !has_size(marked.sector(), self.known.bounds()) {
            return;
        }
        marked.renew(fresh, self.marks.of(at));
    }

    /// Whether another policy judges the sector's window than the one that judges the open windows.
    /// No clause tells the answer. If it were wrongly no, the sector would stay behind and be torn
    /// to the next tick; if it were wrongly yes, its window would begin once more.
    pub fn is_behind(&self, marked: &Marked<A>) -> bool {
        marked.sector().version().edits != self.version().edits
    }

    /// Has the sector of that number begin its window anew with what the keeper has of it, as
    /// `renew` does, where it is behind. Else it stays as it is.
    pub fn begin_anew(
        &self,
        alloc: Global,
        at: usize,
        marked: &mut Marked<A>,
    ) -> Result<(), AllocError>
        requires { at < A.all }
        ensures led { (marked.new ≡ marked.old) ⊎ IsPartOf self.now.world marked.new }
        ensures err { OnErr result (marked.new ≡ marked.old) }
        ensures count { count_of marked.new ≡ count_of marked.old }
    {
        if !self.is_behind(marked) {
            return Ok(());
        }
        self.soundness();
        let fresh = self.known.fresh(alloc, at)?;
        self.renew(at, marked, fresh);
        Ok(())
    }
}
