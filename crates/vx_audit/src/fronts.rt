//! What comes next in each sector's window, where several players made calls at once.
ghost use Rattle.std.specs.Prelude.{◌≡◌, true, ◌∷◌, map, IfSome};
ghost use Rattle.vx_sector.specs.SectorData.{entry_of};
ghost use Rattle.vx_audit.specs.Counts.{AreAfter, IsAfter};

use crate::counts::{Row, is_none, take_one};
use vx_sector::Entry;

// Takes from the front of each sector's window as many entries of each seat as were counted there;
// where others come first, or fewer, it stops.
pub(crate) fn take_counted<'a>(lefts: &mut [&'a [Entry]], counts: &[Row]) -> bool
    ensures { result ≡ true → AreAfter counts.now (map (λ left. map entry_of left.now) lefts.old)
        (map (λ left. map entry_of left.now) lefts.new) }
{
    for (k, due) in counts.iter().enumerate() {
        if k >= lefts.len() {
            return false;
        }
        let Some(rest) = rest_after(lefts[k], *due) else {
            return false;
        };
        lefts[k] = rest;
    }
    true
}

// What is left of one sector's window.
fn rest_after<'a>(left: &'a [Entry], due: Row) -> Option<&'a [Entry]>
    ensures { IfSome result (λ rest. IsAfter due (map entry_of left.now) (map entry_of rest.now)) }
{
    let mut due = due;
    let mut rest = left;
    while let Some((next, others)) = first_entry(rest) {
        if !take_one(&mut due, next.seat.number) {
            break;
        }
        rest = others;
    }
    if is_none(&due) { Some(rest) } else { None }
}

// The first entry, and those after it.
pub(crate) fn first_entry(entries: &[Entry]) -> Option<(&Entry, &[Entry])>
    ensures { IfSome result (λ parts.
        map entry_of entries.now ≡ entry_of parts.0.now ∷ map entry_of parts.1.now) }
{
    match entries {
        [first, others @ ..] => Some((first, others)),
        [] => None,
    }
}
