ghost use Rattle.std.specs.Prelude.{◌≡◌, true, false, replicate, slice_index_or, slice_set, None, IfOk};
ghost use Rattle.vx_keeper.specs.Marks.{AreAllGiven, AreGiven};

use crate::known::Known;
use crate::next_window::NextWindow;
use crate::places::Places;
use std::alloc::{AllocError, Global};
use std::marker::Model;
use vx_stamp::Mark;

/// For each sector of a world, by its number, the mark that it was given last, if there is one.
#[derive(Drop)]
pub(crate) struct SectorMarks<A: Places> {
    marks: Vec<Option<Mark<Known, A>>>,
}

impl<A: Places> Model for SectorMarks<A> {
    ghost use Rattle.std.specs.Prelude.{List, Option};
    ghost use Rattle.vx_keeper.specs.Marks.{WorldData};

    ghost Value = { List (Option (Option WorldData)) };

    ghost view = { λ a. a.marks.items };
}

impl<A: Places> SectorMarks<A> {
    /// No mark yet, for so many sectors.
    pub(crate) fn none(alloc: Global, count: usize) -> Result<SectorMarks<A>, AllocError>
        ensures { IfOk result (λ marks. marks ≡ replicate count None) }
    {
        let mut marks = Vec::with_capacity(alloc, count)?;
        for _ in 0..count {
            marks.push(None)?;
        }
        Ok(SectorMarks { marks })
    }

    /// The mark of the sector of this number, if it has one.
    pub(crate) fn of(&self, number: usize) -> Option<Mark<Known, A>>
        ensures { result ≡ slice_index_or self.now number None }
    {
        match self.marks.get(number) {
            Some(mark) => again(mark),
            None => None,
        }
    }

    /// Gives each sector this mark. It takes no memory.
    pub(crate) fn give_all(&mut self, mark: &Option<Mark<Known, A>>)
        ensures { AreAllGiven self.old mark.now self.new }
    {
        for number in 0..self.marks.len() {
            self.marks[number] = again(mark);
        }
    }

    /// Gives this mark to each sector that does not go on as it is: to those for which the list has
    /// something, and to all where another policy judges their next windows. It takes no memory.
    pub(crate) fn give_next(
        &mut self,
        next: &[NextWindow],
        is_same_policy: bool,
        mark: &Option<Mark<Known, A>>,
    )
        ensures led { is_same_policy ≡ true → AreGiven self.old next.now mark.now self.new }
        ensures all { is_same_policy ≡ false → AreAllGiven self.old mark.now self.new }
    {
        if is_same_policy {
            self.give_led(next, mark);
        } else {
            self.give_all(mark);
        }
    }

    // Gives this mark to each sector for which the list has something.
    fn give_led(&mut self, next: &[NextWindow], mark: &Option<Mark<Known, A>>)
        ensures { AreGiven self.old next.now mark.now self.new }
    {
        for window in next {
            self.give(window.number, mark);
        }
    }

    // Gives this mark to the sector of that number, if there is one.
    fn give(&mut self, number: usize, mark: &Option<Mark<Known, A>>)
        ensures { self.new ≡ slice_set self.old number mark.now }
    {
        if let Some(place) = self.marks.get_mut(number) {
            *place = again(mark);
        }
    }
}

// The mark again, if there is one.
fn again<A: Places>(mark: &Option<Mark<Known, A>>) -> Option<Mark<Known, A>>
    ensures { result ≡ mark.now }
{
    match mark {
        Some(mark) => Some(mark.again()),
        None => None,
    }
}
