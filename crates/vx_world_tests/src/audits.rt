//! What an audit of a world's record tells of the marks of what was done in it, and of other marks.
ghost use Rattle.std.specs.Prelude.{◌≡◌, ◌+◌, ◌*◌, ◌≤◌, map};
ghost use Rattle.vx_sector.specs.Windows.{most_entries};
ghost use Rattle.vx_windows.specs.Sectors.{entries_in};
ghost use Rattle.vx_record.specs.Archives.{calls_on};
ghost use Rattle.vx_record.specs.Records.{chronicle_in};
ghost use Rattle.vx_audit.specs.Audits.{record_in};
ghost use Rattle.vx_audit.specs.Records.{IsRecord};

use crate::marked::{BLOCKS, CALLS, Case, DONE, OTHER_BLOCKS, TICKS};
use crate::ticks::{is_done, makes_a_tick, plotted};
use std::alloc::Global;
use std::process::Abort;
use std::sync::Wait;
use std::test::Fail;
use std::thread::Threads;
use vx_audit::follow;
use vx_block::Part;
use vx_board::Desk;
use vx_geom::Pos;
use vx_keeper::{Keeper, Places};
use vx_sector::Cmd;
use vx_world::{Lifted, Pass, Report, Seats, World};

/// Which marks are handed to the audit.
#[derive(Clone, Copy)]
pub enum Audit {
    /// Those of what was done.
    Done,
    /// Those with other calls.
    OtherCalls,
    /// Those with other ticks or edits.
    OtherTicks,
    /// Those with blocks in place of single calls.
    InBlocks,
    /// Those with other blocks.
    OtherBlocks,
}

impl Audit {
    fn cases(self) -> &'static [Case] {
        match self {
            Audit::Done => &DONE,
            Audit::OtherCalls => &CALLS,
            Audit::OtherTicks => &TICKS,
            Audit::InBlocks => &BLOCKS,
            Audit::OtherBlocks => &OTHER_BLOCKS,
        }
    }
}

/// Ann and bob make calls in both sectors, in three windows, and an edit counts in the last.
pub fn play<A: Places + Send + Sync, B: Seats + Send + Sync, R: Threads + Wait + Abort + Sync>(
    rt: &R,
    alloc: Global,
    world: &World<A, B>,
    desk: &Desk<A, &R>,
    keeper: &mut Keeper<A>,
    passes: &mut [Pass<A, B>],
) -> Result<(), Fail> {
    let (ann, others) = passes.split_first_mut().ok_or("no pass")?;
    let bob = others.first_mut().ok_or("no pass")?;
    begin(rt, alloc, world, keeper, ann, bob);
    plotted(rt, alloc, desk, keeper)?;
    go_on(rt, alloc, world, keeper, ann, bob);
    Ok(())
}

fn begin<A: Places, B: Seats, R: Threads + Wait + Abort + Sync>(
    rt: &R,
    alloc: Global,
    world: &World<A, B>,
    keeper: &mut Keeper<A>,
    ann: &mut Pass<A, B>,
    bob: &mut Pass<A, B>,
) {
    is_done(rt, world, ann, stone_at(1));
    is_done(rt, world, bob, stone_at(17));
    is_done(rt, world, bob, stone_at(2));
    is_done(rt, world, ann, stone_at(18));
    makes_a_tick(rt, alloc, world, keeper);
}

fn go_on<A: Places, B: Seats, R: Threads + Wait + Abort + Sync>(
    rt: &R,
    alloc: Global,
    world: &World<A, B>,
    keeper: &mut Keeper<A>,
    ann: &mut Pass<A, B>,
    bob: &mut Pass<A, B>,
) {
    is_done(rt, world, bob, stone_at(19));
    makes_a_tick(rt, alloc, world, keeper);
    is_done(rt, world, ann, stone_at(3));
}

fn stone_at(x: i32) -> Cmd {
    Cmd::Place(Pos::new(x, 1, 8), Part::Stone)
}

/// The world is settled, and of each of these marks the audit tells what is due.
pub fn tells<A: Places, B: Seats>(
    rt: &impl Abort,
    alloc: Global,
    lifted: Lifted<A, B>,
    keeper: Keeper<A>,
    passes: Vec<Pass<A, B>>,
    audit: Audit,
) -> Result<(), Fail>
    requires ledgers { (A.parts ≡ A.all + B.all) × (B.parts ≡ 2 * B.all) }
{
    let Ok(report) = lifted.finish(alloc, keeper, passes) else {
        return Err("not settled".into());
    };
    assert!(rt; report.calls() == 6);
    tells_of(rt, alloc, &report, audit.cases());
    Ok(())
}

fn tells_of(rt: &impl Abort, alloc: Global, report: &Report, cases: &[Case])
    requires record { IsRecord (record_in report.now.chronicle report.now.windows.items
        report.now.version) }
    requires few { calls_on (chronicle_in report.now.chronicle).ticks
        (map entries_in report.now.windows.items) ≤ most_entries }
{
    for (marks, due) in cases {
        let found = follow(
            alloc,
            &report.chronicle,
            &report.windows,
            &report.version,
            marks,
        );
        assert!(rt; found == Ok(*due));
    }
}
