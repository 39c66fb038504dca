ghost use Rattle.std.specs.Prelude.{◌≡◌, ◌+◌, ◌<◌, true, map, length, ◌∷◌, IfOk, IfSome};
ghost use Rattle.vx_sector.specs.SectorData.{entry_of};
ghost use Rattle.vx_record.specs.Records.{tick_in};
ghost use Rattle.vx_audit.specs.Audits.{record_in};
ghost use Rattle.vx_audit.specs.Walks.{AreDone, version_in};
ghost use Rattle.vx_audit.specs.Shown.{shown};

use crate::counts::{Row, count_block, first_mark};
use crate::fronts::{first_entry, take_counted};
use crate::mark::Mark;
use crate::windows::Windows;
use std::alloc::{AllocError, Global};
use std::marker::Model;
use vx_policy::Version;
use vx_record::{Chronicle, Tick};
use vx_sector::Entry;
use vx_windows::MAX_PLAYERS;

/// A walk over the record of a world, by the marks of one deed after another: what is left of the
/// windows at hand, and what comes after them.
#[derive(Drop)]
pub(crate) struct Walk<'a> {
    lefts: Vec<&'a [Entry]>,
    // Where it is set, nothing is left of any window; where it is not, all are looked at.
    none_left: bool,
    ticks: &'a [Tick],
    pending: &'a [Vec<Entry>],
    version: &'a Version,
    edits: u64,
    // In the walk, so that no block takes memory.
    counts: Vec<Row>,
}

impl<'a> Model for Walk<'a> {
    ghost use Rattle.std.specs.Prelude.{◌≡◌, true, map};
    ghost use Rattle.vx_sector.specs.SectorData.{entry_of};
    ghost use Rattle.vx_windows.specs.Sectors.{entries_in};
    ghost use Rattle.vx_record.specs.Records.{tick_in};
    ghost use Rattle.vx_audit.specs.Walks.{AreDone, WalkData};

    ghost Value = { WalkData };

    ghost view = { λ a. record {
      lefts = map (λ left. map entry_of left.now) a.lefts.items;
      ticks = map tick_in a.ticks.now;
      pending = map entries_in a.pending.now;
      last = a.version.now;
      edits = a.edits;
    } };

    ghost invariant = { λ a. a.none_left ≡ true
        → AreDone (map (λ left. map entry_of left.now) a.lefts.items) };
}

impl<'a> Walk<'a> {
    ghost use Rattle.vx_audit.specs.Walks.{FollowsCall, FollowsIn, FollowsTick, GoesOn, GoesOnBlock, IsEnd, start_of};

    // A walk over this record, with no deed taken.
    pub(crate) fn begin(
        alloc: Global,
        chronicle: &'a Chronicle,
        windows: &'a [Vec<Entry>],
        version: &'a Version,
    ) -> Result<Walk<'a>, AllocError>
        ensures { IfOk result (λ walk.
            walk ≡ start_of (record_in chronicle.now windows.now version.now)) }
    {
        let ticks = chronicle.ticks.as_slice();
        let first = Windows::first(ticks, windows);
        Ok(Walk {
            lefts: all_left(alloc, &first)?,
            none_left: false,
            ticks,
            pending: windows,
            version,
            edits: 0,
            counts: vec![in alloc; [0; MAX_PLAYERS]; first.count()]?,
        })
    }

    // Whether nothing is left of the record.
    pub(crate) fn is_end(&self) -> bool
        ensures { result ≡ true → IsEnd self.now }
    {
        self.ticks.is_empty() && self.is_done()
    }

    // Whether nothing is left of the windows at hand.
    fn is_done(&self) -> bool
        ensures { result ≡ true → AreDone self.now.lefts }
    {
        self.none_left || are_done(&self.lefts)
    }

    // Goes on by the marks of the next deed, if the record has it next, and hands out the marks
    // after them.
    pub(crate) fn go_on<'m>(&mut self, marks: &'m [Mark]) -> Option<&'m [Mark]>
        ensures goes_on { IfSome result (λ others. GoesOn self.old marks.now self.new others.now) }
        ensures fewer { IfSome result (λ others. length others.now < length marks.now) }
    {
        let (mark, others) = first_mark(marks)?;
        let follows = match mark {
            Mark::Call { seat, sector } => self.follow_call(*seat, *sector),
            Mark::Edit => self.follow_edit(),
            Mark::Tick => self.follow_tick(),
            Mark::Begin => return self.follow_block(others),
            Mark::End => false,
        };
        if follows { Some(others) } else { None }
    }

    // Goes on by a call; out of the world it leaves no trace.
    fn follow_call(&mut self, seat: u8, sector: Option<u8>) -> bool
        ensures { result ≡ true → FollowsCall self.old seat self.new sector }
    {
        match sector {
            Some(k) => self.follow_in(seat, k as usize),
            None => true,
        }
    }

    // Goes on by a call in that sector.
    fn follow_in(&mut self, seat: u8, k: usize) -> bool
        ensures { result ≡ true → FollowsIn self.old seat k self.new }
    {
        let Some(left) = self.lefts.get_mut(k) else {
            return false;
        };
        let Some((next, rest)) = first_entry(left) else {
            return false;
        };
        if next.seat.number != seat {
            return false;
        }
        *left = rest;
        self.none_left = false;
        true
    }

    // Goes on by a block, whose marks these are up to its end.
    fn follow_block<'m>(&mut self, marks: &'m [Mark]) -> Option<&'m [Mark]>
        ensures { IfSome result (λ others. GoesOnBlock self.old marks.now self.new others.now) }
    {
        let others = count_block(&mut self.counts, marks)?;
        self.none_left = false;
        if !take_counted(&mut self.lefts, &self.counts) {
            return None;
        }
        Some(others)
    }

    // Goes on by an edit.
    fn follow_edit(&mut self) -> bool
        ensures { result ≡ true → self.new ≡ record self.old { edits = self.old.edits + 1 } }
    {
        match self.edits.checked_add(1) {
            Some(edits) => {
                self.edits = edits;
                true
            }
            None => false,
        }
    }

    // Goes on by a tick, from which on all edits so far count.
    fn follow_tick(&mut self) -> bool
        ensures { result ≡ true → FollowsTick self.old self.new }
    {
        let Some((tick, ticks)) = first_tick(self.ticks) else {
            return false;
        };
        // Read, so that the proof has a name for it.
        let _ = tick.number;
        if !self.is_done() || version_of(ticks, self.version).edits != self.edits {
            return false;
        }
        let next = Windows::first(ticks, self.pending);
        if next.count() != self.lefts.len() {
            return false;
        }
        self.ticks = ticks;
        // Nothing was left of the windows before, so what has no entries stands as it is.
        self.none_left = next.is_quiet();
        next.put_into(&mut self.lefts);
        true
    }
}

// The first tick, and those after it.
fn first_tick(ticks: &[Tick]) -> Option<(&Tick, &[Tick])>
    ensures { IfSome result (λ parts.
        map tick_in ticks.now ≡ tick_in parts.0.now ∷ map tick_in parts.1.now) }
{
    match ticks {
        [tick, others @ ..] => Some((tick, others)),
        [] => None,
    }
}

// The version that judges them.
fn version_of<'a>(ticks: &'a [Tick], last: &'a Version) -> &'a Version
    ensures { result.now ≡ version_in (map tick_in ticks.now) last.now }
{
    match ticks {
        [tick, ..] => &tick.version,
        [] => last,
    }
}

// All that is left of these windows as they begin.
fn all_left<'a>(alloc: Global, windows: &Windows<'a>) -> Result<Vec<&'a [Entry]>, AllocError>
    ensures { IfOk result (λ lefts.
        map (λ left. map entry_of left.now) lefts.items ≡ shown windows.now) }
{
    let none: &'a [Entry] = &[];
    let mut lefts = vec![in alloc; none; windows.count()]?;
    windows.put_into(&mut lefts);
    Ok(lefts)
}

// Whether nothing is left of any.
fn are_done(lefts: &[&[Entry]]) -> bool
    ensures { result ≡ true → AreDone (map (λ left. map entry_of left.now) lefts.now) }
{
    for left in lefts {
        if !left.is_empty() {
            return false;
        }
    }
    true
}
