//! How many calls of each seat a block has in each sector.
ghost use Rattle.std.specs.Prelude.{◌≡◌, ℕ, true, false, ◌∷◌, slice_index_or, [], IfSome};
ghost use Rattle.vx_audit.specs.Counts.{AreNone, IsCounted, IsOneLess, IsOneMore, count_at};

use crate::mark::Mark;
use vx_windows::MAX_PLAYERS;

/// For each seat a number of calls.
pub(crate) type Row = [u32; MAX_PLAYERS];

// Counts the calls of a block, whose marks these are up to its end, and hands out the marks after
// that; none where something else than a call stands before the end, or there is no end.
pub(crate) fn count_block<'m>(counts: &mut [Row], marks: &'m [Mark]) -> Option<&'m [Mark]>
    ensures { IfSome result (λ others. IsCounted marks.now counts.new others.now) }
{
    clear(counts);
    let mut left = marks;
    while let Some((mark, others)) = first_mark(left) {
        match mark {
            Mark::Call { seat, sector } => {
                if !add(counts, *seat, *sector) {
                    return None;
                }
            }
            Mark::End => return Some(others),
            Mark::Edit | Mark::Tick | Mark::Begin => return None,
        }
        left = others;
    }
    None
}

// The first mark, and those after it.
pub(crate) fn first_mark(marks: &[Mark]) -> Option<(&Mark, &[Mark])>
    ensures { IfSome result (λ parts. marks.now ≡ parts.0.now ∷ parts.1.now) }
{
    match marks {
        [first, others @ ..] => Some((first, others)),
        [] => None,
    }
}

// Counts nothing.
fn clear(counts: &mut [Row])
    ensures { (k seat : ℕ) → count_at counts.new k seat ≡ 0 }
{
    for row in counts.iter_mut() {
        clear_row(row);
    }
}

// Counts nothing of any seat.
fn clear_row(row: &mut Row)
    ensures { AreNone row.new }
{
    *row = [0; MAX_PLAYERS];
}

// Counts a call; one out of the world is not counted.
fn add(counts: &mut [Row], seat: u8, sector: Option<u8>) -> bool
    ensures { result ≡ true → IsOneMore counts.old (seat, sector) counts.new }
{
    match sector {
        Some(k) => add_in(counts, k as usize, seat as usize),
        None => true,
    }
}

// Counts a call of a seat in a sector.
fn add_in(counts: &mut [Row], k: usize, seat: usize) -> bool
    ensures { result ≡ true → IsOneMore counts.old (seat, Some k) counts.new }
{
    if k >= counts.len() {
        return false;
    }
    add_to(&mut counts[k], seat)
}

// Counts a call of a seat in its sector's row.
fn add_to(row: &mut Row, seat: usize) -> bool
    ensures { result ≡ true → IsOneLess row.new seat row.old }
{
    if seat >= MAX_PLAYERS {
        return false;
    }
    match row[seat].checked_add(1) {
        Some(more) => {
            row[seat] = more;
            true
        }
        None => false,
    }
}

// Takes one from the count of a seat, if there is one.
pub(crate) fn take_one(due: &mut Row, seat: u8) -> bool
    ensures taken { result ≡ true → IsOneLess due.old seat due.new }
    ensures left { result ≡ false → due.new ≡ due.old }
{
    let seat = seat as usize;
    if seat >= MAX_PLAYERS || due[seat] == 0 {
        return false;
    }
    due[seat] -= 1;
    true
}

// Whether each count is 0.
pub(crate) fn is_none(due: &Row) -> bool
    ensures { result ≡ true → AreNone due.now }
{
    due.iter().all(|count| *count == 0)
}
