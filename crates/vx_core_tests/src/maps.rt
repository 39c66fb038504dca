//! Maps by the texts of their cells, and their ticks on several threads.
ghost use Rattle.std.specs.Prelude.{◌<◌, ◌≤◌};
ghost use Rattle.vx_step.specs.declared.workers.TheConstants.{MAX_WORKERS};

use crate::same::same;
use std::alloc::{AllocError, Global};
use std::process::Abort;
use std::test::Fail;
use std::thread::Threads;
use vx_block::Cell;
use vx_cells::Whole;
use vx_geom::{Bounds, LOW_HEIGHT, Pos};
use vx_policy::Version;
use vx_step::{Fate, Gate, MAX_WORKERS, NoGate, step_parts};

// Cells, by their texts, at x, y and z.
pub type Placed<'a> = &'a [(i32, i32, i32, &'a str)];

// A world of four sectors of 16 by 16 columns.
pub fn world(rt: &impl Abort, alloc: Global, placed: Placed) -> Result<Whole, Fail> {
    let bounds = Bounds::new(2, 2, 1, LOW_HEIGHT).ok_or("no bounds")?;
    let mut map = Whole::new(alloc, bounds)?;
    put(rt, &mut map, placed)?;
    Ok(map)
}

// A world of so many sectors of 16 by 16 columns side by side.
pub fn row(rt: &impl Abort, alloc: Global, sectors: u8, placed: Placed) -> Result<Whole, Fail> {
    let bounds = Bounds::new(sectors, 1, 1, LOW_HEIGHT).ok_or("no bounds")?;
    let mut map = Whole::new(alloc, bounds)?;
    put(rt, &mut map, placed)?;
    Ok(map)
}

fn put(rt: &impl Abort, map: &mut Whole, placed: Placed) -> Result<(), AllocError> {
    for (x, y, z, text) in placed {
        let cell = Cell::read(text).expect(rt, "no such cell");
        map.set(Pos::new(*x, *y, *z), cell)?;
    }
    Ok(())
}

// A tick by any of these numbers of workers makes this next map, and its moves have these fates.
pub fn all_agree<R: Threads + Abort + Sync>(
    rt: &R,
    alloc: Global,
    map: &Whole,
    version: &Version,
    counts: &[usize],
    next: &Whole,
    fates: &[(Pos, Fate)],
) -> Result<(), AllocError> {
    for workers in counts {
        agrees(rt, alloc, map, version, *workers, next, fates)?;
    }
    Ok(())
}

fn agrees<R: Threads + Abort + Sync>(
    rt: &R,
    alloc: Global,
    map: &Whole,
    version: &Version,
    workers: usize,
    next: &Whole,
    fates: &[(Pos, Fate)],
) -> Result<(), AllocError> {
    assert!(rt; 0 < workers && workers <= MAX_WORKERS);
    let (parted, told) = parted(rt, alloc, map, version, workers, &NoGate)?;
    is_tick(rt, &parted, told.as_slice(), next, fates);
    Ok(())
}

fn is_tick(
    rt: &impl Abort,
    parted: &Whole,
    told: &[(Pos, Fate)],
    next: &Whole,
    fates: &[(Pos, Fate)],
) {
    assert!(rt; parted.sectors() == next.sectors());
    same(rt, &told, &fates);
}

pub fn parted<R: Threads + Sync, G: Gate + Sync>(
    rt: &R,
    alloc: Global,
    map: &Whole,
    version: &Version,
    workers: usize,
    gate: &G,
) -> Result<(Whole, Vec<(Pos, Fate)>), AllocError>
    requires { (0 < workers) × (workers ≤ MAX_WORKERS) }
{
    map.soundness();
    let bounds = map.frozen().bounds();
    step_parts(rt, alloc, bounds, map.sectors(), version, workers, gate)
}
