ghost use Rattle.std.specs.Prelude.{◌<◌, ◌≤◌, IfOk};
ghost use Rattle.vx_step.specs.declared.workers.TheConstants.{MAX_WORKERS};
ghost use Rattle.vx_step.specs.Shares.{AreFromTo};

use crate::gate::Gate;
use crate::point::Point;
use crate::shares::in_parts;
use crate::work::Work;
use std::alloc::{AllocError, Global};
use std::thread::Threads;
use vx_tick::Phase;

/// A tick is worked by at most so many threads.
pub const MAX_WORKERS: usize = 8;

/// 1 to 8 threads that share out the sectors of a tick, with a gate that is called as each piece of
/// a phase begins.
#[derive(Drop)]
pub struct Workers<'a, R, G> {
    rt: &'a R,
    count: usize,
    gate: &'a G,
    ghost few: { (0 < count) × (count ≤ MAX_WORKERS) },
}

impl<'a, R: Threads + Sync, G: Gate + Sync> Workers<'a, R, G> {
    /// So many threads.
    pub fn new(rt: &'a R, count: usize, gate: &'a G) -> Workers<'a, R, G>
        requires { (0 < count) × (count ≤ MAX_WORKERS) }
    {
        Workers { rt, count, gate }
    }

    /// At most so many of them, and at least one.
    pub fn at_most(&self, count: usize) -> Workers<'a, R, G> {
        Workers {
            rt: self.rt,
            count: self.count.min(count).max(1),
            gate: self.gate,
        }
    }

    /// Whether there is one alone, to whom no sectors are shared out. No clause says so: only costs
    /// rest on it.
    pub fn is_one(&self) -> bool {
        self.count == 1
    }

    /// Calls the gate for each of so many sectors, where one thread begins a phase of all of them.
    pub fn begin(&self, sectors: u32, phase: Phase) {
        for sector in 0..sectors {
            self.gate.at(sector, Point::Working(phase));
        }
    }

    /// The pieces of all sectors.
    pub fn all<W: Work + Sync>(&self, alloc: Global, work: &W) -> Result<Vec<W::Out>, AllocError>
    where
        W::Out: Send + Drop,
        ensures { IfOk result (λ outs.
            AreFromTo (W.gives work.now) 0 (W.count work.now) outs.items) }
    {
        in_parts(self.rt, alloc, work, self.count, self.gate)
    }
}
