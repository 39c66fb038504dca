//! Deciders by an index, with verdicts kept and without, beside the walk over all regions.
use crate::same::same;
use std::alloc::Global;
use std::process::Abort;
use std::test::Fail;
use vx_decide::{Decide, Plain, Rule, Verdict};
use vx_file::read_policy;
use vx_flag::{Action, Flag};
use vx_geom::{Bounds, LOW_HEIGHT, Pos};
use vx_index::{Cached, Indexed};
use vx_region::{Name, RegionNo, RegionSet, Subject};

const PLACE: Pos = Pos { x: 5, y: 1, z: 5 };

// Two regions of one priority over one place: the first allows to break, the second denies it.
const EVEN: &[u8] =
    b"version = 1\n[[region]]\nid = 'a'\ncuboid = [5, 0, 5, 5, 63, 5]\npriority = 5\nflags = { block-break = 'allow' }\n[[region]]\nid = 'b'\ncuboid = [5, 0, 5, 5, 63, 5]\npriority = 5\nflags = { block-break = 'deny' }\n";

// The one that denies has the lower priority.
const UNEVEN: &[u8] =
    b"version = 1\n[[region]]\nid = 'a'\ncuboid = [5, 0, 5, 5, 63, 5]\npriority = 5\nflags = { block-break = 'allow' }\n[[region]]\nid = 'b'\ncuboid = [5, 0, 5, 5, 63, 5]\npriority = 4\nflags = { block-break = 'deny' }\n";

// A pond of three corners in a garden: some of the places in its box are not in it.
const GARDEN: &[u8] =
    b"version = 1\n[[region]]\nid = 'garden'\ncuboid = [0, 0, 0, 9, 63, 15]\nowners = ['ann']\n[[region]]\nid = 'pond'\npolygon = [2, 2, 14, 2, 2, 14]\ny = [0, 63]\n";

#[test]
fn an_index_decides_as_the_walk_does(rt: HostRuntime) -> Result<(), Fail> {
    agree(&rt, rt.alloc(), EVEN, Verdict::Deny(by(2)))?;
    agree(&rt, rt.alloc(), UNEVEN, Verdict::Permit(by(1)))
}

fn by(number: u32) -> Rule {
    Rule::Flag {
        at: RegionNo(number),
        from: RegionNo(number),
        flag: Flag::BlockBreak,
    }
}

fn agree(rt: &impl Abort, alloc: Global, file: &[u8], verdict: Verdict) -> Result<(), Fail> {
    let policy = read_policy(alloc, file)?;
    decide_alike(rt, alloc, policy.regions(), &verdict)
}

fn decide_alike(
    rt: &impl Abort,
    alloc: Global,
    regions: &RegionSet,
    verdict: &Verdict,
) -> Result<(), Fail> {
    let ann = ann()?;
    says(rt, &Plain::new(regions), &ann, verdict);
    let indexed = Indexed::build(alloc, regions, bounds()?)?;
    says(rt, &indexed, &ann, verdict);
    all_say(rt, &mut Cached::new(indexed), &ann, verdict);
    Ok(())
}

// Asked first, when nothing is kept, and again.
fn all_say(rt: &impl Abort, cached: &mut Cached<'_>, ann: &Subject, verdict: &Verdict) {
    says(rt, &*cached, ann, verdict);
    keeps(rt, cached, ann, verdict);
    keeps(rt, cached, ann, verdict);
    says(rt, &*cached, ann, verdict);
}

fn says<D: Decide>(rt: &impl Abort, decider: &D, ann: &Subject, verdict: &Verdict) {
    same(rt, &decider.decide(ann, Action::Breaking, PLACE), verdict);
}

fn keeps(rt: &impl Abort, cached: &mut Cached<'_>, ann: &Subject, verdict: &Verdict) {
    same(rt, &cached.ask(ann, Action::Breaking, PLACE), verdict);
}

// One more than are kept, and then the first again, which gave way to the last.
#[test]
fn the_verdict_asked_for_first_gives_way(rt: HostRuntime) -> Result<(), Fail> {
    let policy = read_policy(rt.alloc(), GARDEN)?;
    ask_all(&rt, rt.alloc(), policy.regions())
}

fn ask_all(rt: &impl Abort, alloc: Global, regions: &RegionSet) -> Result<(), Fail> {
    let (ann, bounds) = (ann()?, bounds()?);
    let indexed = Indexed::build(alloc, regions, bounds)?;
    ask_each(rt, &mut Cached::new(indexed), &Plain::new(regions), &ann);
    Ok(())
}

fn ask_each(rt: &impl Abort, cached: &mut Cached<'_>, plain: &Plain<'_>, ann: &Subject) {
    for number in 0..257 {
        ask_at(rt, cached, plain, ann, place(number));
    }
    ask_at(rt, cached, plain, ann, place(0));
}

// The place of that number, row by row and layer by layer.
fn place(number: u32) -> Pos {
    Pos::new(
        (number % 16) as i32,
        (number / 256) as i32,
        (number / 16 % 16) as i32,
    )
}

fn ask_at(rt: &impl Abort, cached: &mut Cached<'_>, plain: &Plain<'_>, ann: &Subject, p: Pos) {
    let told = plain.decide(ann, Action::Placing, p);
    same(rt, &cached.ask(ann, Action::Placing, p), &told);
}

fn ann() -> Result<Subject, Fail> {
    Ok(Subject::Player(Name::read("ann")?))
}

fn bounds() -> Result<Bounds, Fail> {
    let bounds = Bounds::new(1, 1, 1, LOW_HEIGHT).ok_or("no bounds")?;
    Ok(bounds)
}
