//! Commands and workers that are held at a gate until another has come.
use std::alloc::Global;
use std::process::Abort;
use std::sync::Wait;
use std::sync::atomic::{AtomicU64, Ordering};
use std::test::Fail;
use std::thread::{self, Threads};
use vx_block::Part;
use vx_geom::Pos;
use vx_keeper::{Keeper, Places};
use vx_sector::Cmd;
use vx_step::{Gate, NoGate, Phase, Point};
use vx_world::{Pass, Seats, World};

// How often who waits looks, before it gives up.
const TURNS: u64 = 1_000_000_000;

// A gate at which whoever comes to sector 0 waits until it is opened.
#[derive(Drop)]
struct Holding {
    came: AtomicU64,
    opened: AtomicU64,
    missed: AtomicU64,
}

impl Holding {
    fn new() -> Holding {
        Holding {
            came: AtomicU64::new(0),
            opened: AtomicU64::new(0),
            missed: AtomicU64::new(0),
        }
    }

    fn await_at(&self, word: &AtomicU64) {
        for _ in 0..TURNS {
            if word.load(Ordering::SeqCst) == 1 {
                return;
            }
        }
        self.missed.store(1, Ordering::SeqCst);
    }
}

impl Gate for Holding {
    fn at(&self, sector: u32, point: Point) {
        match (sector, point) {
            (0, Point::Held) => {
                self.came.store(1, Ordering::SeqCst);
                self.await_at(&self.opened);
            }
            (0, Point::Working(Phase::Parts)) => self.await_at(&self.opened),
            (1, Point::Working(Phase::Parts)) => self.opened.store(1, Ordering::SeqCst),
            _ => {}
        }
    }
}

/// A command in sector 1 is answered while one in sector 0 is held under its lock.
pub fn two_sectors<
    A: Places + Send + Sync,
    B: Seats + Send + Sync,
    R: Threads + Wait + Abort + Sync,
>(rt: &R, world: &World<A, B>, passes: &mut [Pass<A, B>]) -> Result<(), Fail> {
    let (ann, others) = passes.split_first_mut().ok_or("no pass")?;
    let bob = others.first_mut().ok_or("no pass")?;
    are_apart(rt, world, ann, bob);
    Ok(())
}

fn are_apart<A: Places + Send + Sync, B: Seats + Send + Sync, R: Threads + Wait + Abort + Sync>(
    rt: &R,
    world: &World<A, B>,
    ann: &mut Pass<A, B>,
    bob: &mut Pass<A, B>,
) {
    let gate = Holding::new();
    let (first, second) = thread::join(
        rt,
        || is_placed(rt, world, ann, stone_at(5), &gate),
        || {
            gate.await_at(&gate.came);
            let placed = is_placed(rt, world, bob, stone_at(20), &NoGate);
            gate.opened.store(1, Ordering::SeqCst);
            placed
        },
    );
    assert!(rt; first && second);
    assert!(rt; gate.missed.load(Ordering::SeqCst) == 0);
}

fn is_placed<A: Places, B: Seats, R: Wait, G: Gate>(
    rt: &R,
    world: &World<A, B>,
    pass: &mut Pass<A, B>,
    cmd: Cmd,
    gate: &G,
) -> bool {
    world.submit(rt, pass, cmd, gate).is_ok()
}

fn stone_at(x: i32) -> Cmd {
    Cmd::Place(Pos::new(x, 1, 5), Part::Stone)
}

/// The worker of sector 0 waits in a tick until that of sector 1 has come.
pub fn two_workers<
    A: Places + Send + Sync,
    B: Seats + Send + Sync,
    R: Threads + Wait + Abort + Sync,
>(
    rt: &R,
    alloc: Global,
    world: &World<A, B>,
    keeper: &mut Keeper<A>,
    passes: &mut [Pass<A, B>],
) -> Result<(), Fail> {
    let ann = passes.first_mut().ok_or("no pass")?;
    // So much that a second worker is taken: four layers of dust.
    for y in [1, 3, 5, 7] {
        assert!(rt; is_spread(rt, world, ann, y));
    }
    meet(rt, alloc, world, keeper);
    Ok(())
}

// Lays dust on all of a layer of the world.
fn is_spread<A: Places, B: Seats, R: Wait>(
    rt: &R,
    world: &World<A, B>,
    ann: &mut Pass<A, B>,
    y: i32,
) -> bool {
    let mut laid = true;
    for z in 0..16 {
        laid &= is_laid(rt, world, ann, y, z);
    }
    laid
}

// Lays dust along a row of a layer.
fn is_laid<A: Places, B: Seats, R: Wait>(
    rt: &R,
    world: &World<A, B>,
    ann: &mut Pass<A, B>,
    y: i32,
    z: i32,
) -> bool {
    let mut laid = true;
    for x in 0..32 {
        let dust = Cmd::Place(Pos::new(x, y, z), Part::Dust);
        laid &= is_placed(rt, world, ann, dust, &NoGate);
    }
    laid
}

fn meet<A: Places, B: Seats, R: Threads + Wait + Abort + Sync>(
    rt: &R,
    alloc: Global,
    world: &World<A, B>,
    keeper: &mut Keeper<A>,
) {
    let gate = Holding::new();
    assert!(rt; world.tick(rt, alloc, keeper, 2, &gate).is_ok());
    assert!(rt; gate.missed.load(Ordering::SeqCst) == 0);
    assert!(rt; gate.opened.load(Ordering::SeqCst) == 1);
}
