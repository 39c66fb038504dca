//! Ticks on several threads: what comes of them, and that they are on several.
use crate::maps::{Placed, all_agree, parted, world};
use crate::same::same;
use std::alloc::{AllocError, Global};
use std::process::Abort;
use std::sync::atomic::{AtomicU64, Ordering};
use std::test::Fail;
use std::thread::Threads;
use vx_cells::Whole;
use vx_decide::Rule;
use vx_file::read_policy;
use vx_geom::Pos;
use vx_policy::{Policy, Version};
use vx_region::RegionNo;
use vx_step::{Fate, Gate, Phase, Point, step_plain};

const NO_REGION: &str = "version = 1\n";

// Ann's land, number 1, lies behind x 17.
const LAND: &str =
    "version = 1\n[[region]]\nid = 'land'\ncuboid = [18, 0, 0, 31, 63, 31]\nowners = ['ann']\n";

// Dust over the border of two sectors, and repeaters in two others.
const SIGNALS: Placed<'static> = &[
    (14, 1, 5, "lever:down:on"),
    (15, 1, 5, "dust:0"),
    (16, 1, 5, "dust:0"),
    (17, 1, 5, "lamp:off:0"),
    (5, 1, 20, "lever:down:on"),
    (6, 1, 20, "repeater:east:1:off:0"),
    (20, 1, 20, "lever:down:on"),
    (21, 1, 20, "repeater:east:4:off:2"),
];

// A push over the border of two sectors, into what lies behind x 17.
const PUSH: Placed<'static> = &[
    (15, 1, 5, "piston:east:in"),
    (15, 1, 6, "lever:down:on"),
    (16, 1, 5, "stone"),
    (17, 1, 5, "stone"),
];

// Two pistons in two sectors, which both want the cell between them.
const RIVALS: Placed<'static> = &[
    (15, 1, 5, "piston:east:in"),
    (15, 1, 6, "lever:down:on"),
    (17, 1, 5, "piston:west:in"),
    (17, 1, 6, "lever:down:on"),
];

#[test]
fn any_number_of_workers_makes_the_same_tick(rt: HostRuntime) -> Result<(), Fail> {
    let piston = Pos::new(15, 1, 5);
    let denied = Fate::Denied(Pos::new(18, 1, 5), Rule::Member { at: RegionNo(1) });
    let beaten = (Pos::new(17, 1, 5), Fate::Beaten(piston));
    agree(&rt, rt.alloc(), NO_REGION, SIGNALS, &[])?;
    agree(&rt, rt.alloc(), LAND, PUSH, &[(piston, denied)])?;
    agree(
        &rt,
        rt.alloc(),
        LAND,
        RIVALS,
        &[(piston, Fate::Moved), beaten],
    )
}

// On this map the moves have these fates, whatever the number of workers, and the next map is that
// of one thread.
fn agree<R: Threads + Abort + Sync>(
    rt: &R,
    alloc: Global,
    regions: &str,
    placed: Placed,
    due: &[(Pos, Fate)],
) -> Result<(), Fail> {
    let policy = read_policy(alloc, regions.as_bytes())?;
    let map = world(rt, alloc, placed)?;
    Ok(work(rt, alloc, &map, &first(policy), due)?)
}

fn work<R: Threads + Abort + Sync>(
    rt: &R,
    alloc: Global,
    map: &Whole,
    version: &Version,
    due: &[(Pos, Fate)],
) -> Result<(), AllocError> {
    let (next, _) = step_plain(alloc, map, version)?;
    all_agree(rt, alloc, map, version, &[1, 2, 4, 8], &next, due)
}

fn first(policy: Policy) -> Version {
    Version {
        tick: 1,
        edits: 0,
        policy,
    }
}

// Holds whoever works sector 0 until the last sector is worked, or gives up.
#[derive(Drop)]
struct Meeting {
    came: AtomicU64,
    missed: AtomicU64,
}

impl Gate for Meeting {
    fn at(&self, sector: u32, point: Point) {
        match (sector, point) {
            (3, Point::Working(Phase::Parts)) => self.came.store(1, Ordering::SeqCst),
            (0, Point::Working(Phase::Parts)) => self.wait(),
            _ => {}
        }
    }
}

impl Meeting {
    fn wait(&self) {
        for _ in 0..1_000_000_000_u64 {
            if self.came.load(Ordering::SeqCst) == 1 {
                return;
            }
        }
        self.missed.store(1, Ordering::SeqCst);
    }
}

#[test]
fn two_workers_of_a_tick_meet(rt: HostRuntime) -> Result<(), Fail> {
    let meeting = Meeting {
        came: AtomicU64::new(0),
        missed: AtomicU64::new(0),
    };
    meet(&rt, rt.alloc(), &meeting)?;
    same(&rt, &meeting.missed.load(Ordering::SeqCst), &0);
    Ok(())
}

fn meet<R: Threads + Abort + Sync>(rt: &R, alloc: Global, meeting: &Meeting) -> Result<(), Fail> {
    let map = world(rt, alloc, SIGNALS)?;
    Ok(meet_on(rt, alloc, &map, meeting)?)
}

fn meet_on<R: Threads + Abort + Sync>(
    rt: &R,
    alloc: Global,
    map: &Whole,
    meeting: &Meeting,
) -> Result<(), AllocError> {
    let version = first(Policy::new(alloc)?);
    parted(rt, alloc, map, &version, 2, meeting)?;
    Ok(())
}
