//! The marks of what is done in a session.
ghost use Rattle.std.specs.Prelude.{◌≡◌, ◌<◌, IfSome};
ghost use Rattle.vx_geom.specs.Sizes.{sector_of};

use std::alloc::{AllocError, Global};
use vx_audit::Mark;
use vx_geom::{Bounds, Pos};

// To take single sectors out of their places costs more for each than to take out all. So it is
// done where there are at least so many sectors for each busy one.
const SECTORS_FOR_EACH_BUSY: usize = 4;

/// The number of the sector that holds the position; none outside the world.
pub(crate) fn sector_at(bounds: &Bounds, p: Pos) -> Option<u32>
    ensures value { result ≡ sector_of bounds.now p }
    ensures few { IfSome result (λ sector. sector < 256) }
{
    bounds.soundness();
    bounds.sector_of(p)
}

/// The mark of a call of that seat in the sector of that number, or outside the world.
pub(crate) fn call_mark(seat: u8, sector: Option<u32>) -> Mark
    requires { IfSome sector (λ number. number < 256) }
    ensures { result ≡ Mark.Call seat sector }
{
    match sector {
        Some(sector) => Mark::Call {
            seat,
            sector: Some(sector as u8),
        },
        None => Mark::Call { seat, sector: None },
    }
}

/// The numbers of those of so many sectors of which the calls since the last tick speak, in
/// ascending order, by the marks of what was done. It tells none where it costs less to take out
/// all sectors, or for want of memory. No clause tells the answer: if it were wrong, the
/// settlement would say so in the end.
pub(crate) fn busy_sectors(alloc: Global, marks: &[Mark], sectors: usize) -> Option<Vec<usize>> {
    let mut busy = Vec::new(alloc);
    for mark in marks.iter().rev() {
        match mark {
            Mark::Tick => break,
            Mark::Edit | Mark::Begin | Mark::End => {}
            Mark::Call { sector, .. } => add(&mut busy, *sector).ok()?,
        }
        if sectors / SECTORS_FOR_EACH_BUSY < busy.len() {
            return None;
        }
    }
    Some(busy)
}

// Adds the number of a sector, if there is one, to ascending ones, unless it is among them.
fn add(numbers: &mut Vec<usize>, sector: Option<u8>) -> Result<(), AllocError> {
    let Some(number) = sector else {
        return Ok(());
    };
    let number = usize::from(number);
    if let Err(place) = numbers.binary_search(&number) {
        numbers.insert(place, number)?;
    }
    Ok(())
}
