//! Work shared among threads.
ghost use Rattle.std.specs.Prelude.{◌≡◌, ◌<◌, ◌≤◌, ◌+◌, ◌*◌, ◌/◌, ℕ, length, slice_index_or, IfOk};
ghost use Rattle.std.specs.List.{between};
ghost use Rattle.vx_step.specs.declared.workers.TheConstants.{MAX_WORKERS};
ghost use Rattle.vx_step.specs.Shares.{first_of, AreFromTo, IsShare};

use crate::gate::Gate;
use crate::point::Point;
use crate::work::Work;
use std::alloc::{AllocError, Global};
use std::ops::Range;
use std::thread;
use std::thread::Threads;

/// The pieces of all sectors, in order, worked by so many threads as `each_share` works them.
pub fn in_parts<R: Threads + Sync, W: Work + Sync, G: Gate + Sync>(
    rt: &R,
    alloc: Global,
    work: &W,
    workers: usize,
    gate: &G,
) -> Result<Vec<W::Out>, AllocError>
where
    W::Out: Send + Drop,
    requires workers { (0 < workers) × (workers ≤ MAX_WORKERS) }
    ensures { IfOk result (λ outs.
        AreFromTo (W.gives work.now) 0 (W.count work.now) outs.items) }
{
    let shares = each_share(rt, alloc, work, workers, gate)?;
    let mut all = Vec::new(alloc);
    for share in shares {
        all.append(&mut share?)?;
    }
    Ok(all)
}

/// What each worker gives: the pieces of the sectors that `sectors_of` tells for it, in order.
pub fn each_share<R: Threads + Sync, W: Work + Sync, G: Gate + Sync>(
    rt: &R,
    alloc: Global,
    work: &W,
    workers: usize,
    gate: &G,
) -> Result<Vec<Result<Vec<W::Out>, AllocError>>, AllocError>
where
    W::Out: Send + Drop,
    requires workers { (0 < workers) × (workers ≤ MAX_WORKERS) }
    ensures all { IfOk result (λ shares. length shares.items ≡ workers) }
    ensures each { IfOk result (λ shares. (i : ℕ) (d : _) → i < workers
        → IfOk (slice_index_or shares.items i d) (λ outs.
        IsShare (W.gives work.now) (W.count work.now) workers i outs.items)) }
{
    thread::map_indices(
        rt,
        alloc,
        workers,
        &|worker| share(alloc, work, workers, worker, gate),
    )
}

// What one worker gives.
fn share<W: Work, G: Gate>(
    alloc: Global,
    work: &W,
    workers: usize,
    worker: usize,
    gate: &G,
) -> Result<Vec<W::Out>, AllocError>
where
    W::Out: Drop,
    requires workers { (worker < workers) × (workers ≤ MAX_WORKERS) }
    ensures { IfOk result (λ outs.
        IsShare (W.gives work.now) (W.count work.now) workers worker outs.items) }
{
    let own = sectors_of(work.sectors(), workers, worker);
    let mut outs = Vec::new(alloc);
    for sector in own.start..own.end {
        gate.at(sector, Point::Working(work.phase()));
        outs.push(work.piece(alloc, sector)?)?;
    }
    Ok(outs)
}

/// The sectors of a worker, of those that so many workers share out: of n sectors worker i of k has
/// the numbers from i·n/k up to below (i + 1)·n/k.
pub fn sectors_of(sectors: u32, workers: usize, worker: usize) -> Range<u32>
    requires { worker < workers }
    ensures first { result.start ≡ (worker * sectors) / workers }
    ensures end { result.end ≡ ((worker + 1) * sectors) / workers }
{
    let count = sectors as usize;
    first_of(count, workers, worker) as u32..first_of(count, workers, worker + 1) as u32
}

/// The part of that number of so many even parts of some items.
pub fn part_of<T>(items: &[T], parts: usize, part: usize) -> &[T]
    requires { part < parts }
    ensures { result.now ≡ between (first_of (length items.now) parts part)
        (first_of (length items.now) parts (part + 1)) items.now }
{
    &items[first_of(items.len(), parts, part)..first_of(items.len(), parts, part + 1)]
}

// Where a part begins, where so many are divided among so many parts.
fn first_of(count: usize, parts: usize, part: usize) -> usize
    requires { (0 < parts) × (part ≤ parts) }
    ensures value { result ≡ first_of count parts part }
    ensures most { result ≤ count }
{
    (part as u128 * count as u128 / parts as u128) as usize
}
