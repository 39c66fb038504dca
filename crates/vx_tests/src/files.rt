//! The regions file, which no program reads yet.
use crate::same::same;
use std::alloc::{AllocError, Global};
use std::process::Abort;
use std::test::Fail;
use vx_base::Unread;
use vx_decide::{Decide, Plain, Rule, Verdict};
use vx_file::read_policy;
use vx_flag::{Action, Association, Flag, Group, Setting, State};
use vx_geom::Pos;
use vx_region::{Name, Region, RegionNo, RegionSet, Subject};

// The text of examples/plot.toml.
const PLOT: &str =
    "# The plot of plot.vx as a regions file: what its edits say, from the opening on.\nversion = 1\n\n[[region]]\nid = \"plot-7\"\ncuboid = [2, 0, 2, 9, 63, 9]\nowners = [\"Ann\"]\nmembers = [\"bob\"]\n\n[region.flags]\nblock-break = \"deny nonowners\"\n";

const SPAWN: &str =
    "version = 1\n\n[[region]]\nid = \"Spawn\"\ncuboid = [0, 0, 0, 15, 63, 15]\nowners = [\"Ann\"]\n\n[region.flags]\nuse = \"allow nonmembers\"\n";

// The parent stands behind its child, and keys in no order in particular.
const MILL: &str =
    "global = { pistons = 'deny', build = 'deny nonowners' }\nversion = 0x1\n\n[[region]]\nparent = 'TOWN'\nmembers = ['Bob', 'eve']\ny = [-4, 70]\npolygon = [0, 0, 9, 0, 0, +9]\nid = 'mill'\npriority = -3\n\n[region.flags]\nuse = 'deny'\npassthrough = 'allow all'\nbuild = 'allow owners'\n\n[[region]]\nid = 'Town'\nowners = ['ann', 'Ann']\ncuboid = [20, 9, 20, -20, 1, -2_0]\n";

#[test]
fn a_plot_of_a_regions_file(rt: HostRuntime) -> Result<(), Fail> {
    let cases = [
        ("ann", Action::Placing, Verdict::Permit(MEMBER)),
        ("bob", Action::Placing, Verdict::Permit(MEMBER)),
        ("bob", Action::Breaking, Verdict::Deny(by(Flag::BlockBreak))),
        ("cyd", Action::Placing, Verdict::Deny(MEMBER)),
    ];
    decides(&rt, rt.alloc(), PLOT, &cases)
}

#[test]
fn a_lever_at_spawn_is_free_to_all(rt: HostRuntime) -> Result<(), Fail> {
    let cases = [
        ("bob", Action::Turning, Verdict::Permit(by(Flag::Usage))),
        ("bob", Action::Placing, Verdict::Deny(MEMBER)),
        ("ann", Action::Placing, Verdict::Permit(MEMBER)),
    ];
    decides(&rt, rt.alloc(), SPAWN, &cases)
}

const MEMBER: Rule = Rule::Member { at: RegionNo(1) };

fn by(flag: Flag) -> Rule {
    let (at, from) = (RegionNo(1), RegionNo(1));
    Rule::Flag { at, from, flag }
}

// What the policy of a file says to players at (4, 1, 4).
fn decides(
    rt: &impl Abort,
    alloc: Global,
    file: &str,
    cases: &[(&str, Action, Verdict)],
) -> Result<(), Fail> {
    let policy = read_policy(alloc, file.as_bytes())?;
    each_is_told(rt, &Plain::new(policy.regions()), cases);
    Ok(())
}

fn each_is_told(rt: &impl Abort, decider: &Plain<'_>, cases: &[(&str, Action, Verdict)]) {
    for (name, action, verdict) in cases {
        let player = Subject::Player(Name::read(name).expect(rt, "no such name"));
        let told = decider.decide(&player, *action, Pos::new(4, 1, 4));
        same(rt, &told, verdict);
    }
}

#[test]
fn a_file_of_all_that_can_be_said(rt: HostRuntime) -> Result<(), Fail> {
    let policy = read_policy(rt.alloc(), MILL.as_bytes())?;
    is_all_of_mill(&rt, policy.regions());
    Ok(())
}

fn is_all_of_mill(rt: &impl Abort, regions: &RegionSet) {
    same(rt, &[regions.count(), regions.last()], &[2, 2]);
    is_mill(rt, region(rt, regions, 1));
    is_town(rt, region(rt, regions, 2));
    is_global(rt, regions);
    is_associated(rt, regions, "bob", 1, Association::Member);
    // Ann is named in the parent.
    is_associated(rt, regions, "ann", 1, Association::Owner);
    is_associated(rt, regions, "ann", 2, Association::Owner);
    is_associated(rt, regions, "bob", 2, Association::Stranger);
}

fn is_mill(rt: &impl Abort, mill: &Region) {
    same(rt, &mill.id().as_str(), &"mill");
    same(
        rt,
        &(mill.priority(), mill.parent()),
        &(-3, Some(RegionNo(2))),
    );
    contains(rt, mill, Pos::new(1, -4, 1), true);
    contains(rt, mill, Pos::new(1, 70, 1), true);
    contains(rt, mill, Pos::new(1, -5, 1), false);
    contains(rt, mill, Pos::new(8, 0, 8), false);
    sets(rt, mill, Flag::Build, setting(State::Allow, Group::Owners));
    sets(rt, mill, Flag::Usage, setting(State::Deny, Group::All));
    sets(
        rt,
        mill,
        Flag::Passthrough,
        setting(State::Allow, Group::All),
    );
    sets(rt, mill, Flag::Pistons, None);
}

fn is_town(rt: &impl Abort, town: &Region) {
    same(rt, &town.id().as_str(), &"town");
    same(rt, &(town.priority(), town.parent()), &(0, None));
    contains(rt, town, Pos::new(-20, 1, -20), true);
    contains(rt, town, Pos::new(20, 9, 20), true);
    contains(rt, town, Pos::new(-21, 1, -20), false);
    contains(rt, town, Pos::new(0, 10, 0), false);
}

fn contains(rt: &impl Abort, region: &Region, p: Pos, due: bool) {
    same(rt, &region.contains(p), &due);
}

fn sets(rt: &impl Abort, region: &Region, flag: Flag, due: Option<Setting>) {
    same(rt, &region.setting(flag), &due);
}

fn is_global(rt: &impl Abort, regions: &RegionSet) {
    sets_global(
        rt,
        regions,
        Flag::Build,
        setting(State::Deny, Group::Nonowners),
    );
    sets_global(rt, regions, Flag::Pistons, setting(State::Deny, Group::All));
    sets_global(rt, regions, Flag::Usage, None);
}

fn sets_global(rt: &impl Abort, regions: &RegionSet, flag: Flag, due: Option<Setting>) {
    same(rt, &regions.setting(RegionNo(0), flag), &due);
}

fn is_associated(rt: &impl Abort, regions: &RegionSet, name: &str, number: u32, due: Association) {
    let player = Subject::Player(Name::read(name).expect(rt, "no such name"));
    let association = regions.association(&player, RegionNo(number));
    same(rt, &association, &due);
}

fn setting(state: State, group: Group) -> Option<Setting> {
    Some(Setting { state, group })
}

fn region<'a>(rt: &impl Abort, regions: &'a RegionSet, number: u32) -> &'a Region {
    regions.get(RegionNo(number)).expect(rt, "no such region")
}

#[test]
fn each_beginning_of_a_file_is_read_or_is_none(rt: HostRuntime) {
    let alloc = rt.alloc();
    refused(&rt, alloc, b"");
    for text in [SPAWN, MILL] {
        for end in 0..text.len() {
            match read_policy(alloc, &text.as_bytes()[..end]) {
                Ok(_) => {}
                Err(fault) => same(&rt, &fault, &Unread::Faulty),
            }
        }
    }
}

fn refused(rt: &impl Abort, alloc: Global, bytes: &[u8]) {
    same(rt, &read_policy(alloc, bytes).err(), &Some(Unread::Faulty));
}

fn counts(rt: &impl Abort, alloc: Global, text: &str, regions: u32) -> Result<(), Fail> {
    let policy = read_policy(alloc, text.as_bytes())?;
    same(rt, &policy.regions().count(), &regions);
    Ok(())
}

#[test]
fn files_with_few_regions(rt: HostRuntime) -> Result<(), Fail> {
    for (text, regions) in [
        ("version = 1", 0),
        ("version = +1\nregion = []\nglobal = {}\n", 0),
        (
            "version = 1\nregion = [{ id = 'a', cuboid = [0, 0, 0, 1, 1, 1] }]\n",
            1,
        ),
        (
            "version = 1\n[[region]]\nid = 'a'\ncuboid = [0, 0, 0, 1, 1, -2147483648]\nowners = []\nflags = {}\npriority = 2147483647\n",
            1,
        ),
        (
            "version = 2\n[[region]]\nid = 'a'\ncuboid = [0, 0, 0, 1, 1, 1]\ndomains = ['works', 'Works']\n",
            1,
        ),
        (
            "region = [{ id = 'a', y = [3, 3], polygon = [0, 0, 9, 0, 0, 9] }, { id = 'b', parent = 'a', cuboid = [0, 0, 0, 0, 0, 0] }]\nversion = 1",
            2,
        ),
    ] {
        counts(&rt, rt.alloc(), text, regions)?;
    }
    Ok(())
}

// A region that is whole.
const WHOLE: &str = "version = 1\n[[region]]\nid = 'a'\ncuboid = [0, 0, 0, 1, 1, 1]\n";

// What may not stand behind it.
const WRONG: &[&str] = &[
    "colour = 'red'",
    "y = [0, 1]",
    "polygon = [0, 0, 9, 0, 0, 9]",
    "polygon = [0, 0, 9, 0, 0, 9]\ny = [0, 1]",
    "id = 'b'",
    "priority = 2147483648",
    "priority = -2147483649",
    "priority = 4294967296",
    "priority = 1.0",
    "priority = '1'",
    "priority = true",
    "priority = [1]",
    "parent = '*'",
    "parent = 'b'",
    "parent = 'a'",
    "parent = '__global__'",
    "parent = 1",
    "owners = 'ann'",
    "owners = [1]",
    "owners = ['ann', 'no-name']",
    "members = ['']",
    "members = ['abcdefghijklmnopq']",
    "members = { ann = 1 }",
    "domains = []",
    "flags = 'use'",
    "flags = [{ use = 'deny' }]",
    "flags = { usage = 'deny' }",
    "flags = { use = 'deny', colour = 'deny' }",
    "flags = { use = true }",
    "flags = { use = '' }",
    "flags = { use = 'Allow' }",
    "flags = { use = 'maybe' }",
    "flags = { use = ' allow' }",
    "flags = { use = 'allow ' }",
    "flags = { use = 'allow  nonmembers' }",
    "flags = { use = 'allow nonmembers ' }",
    "flags = { use = 'allow Members' }",
    "flags = { use = 'allow strangers' }",
    "flags = { use = 'allow members owners' }",
    "flags = { use = 'members' }",
    "[region.colours]",
    "[[region]]\nid = 'A'\ncuboid = [0, 0, 0, 1, 1, 1]",
    "parent = 'b'\n[[region]]\nid = 'b'\ncuboid = [0, 0, 0, 1, 1, 1]\nparent = 'a'",
    "[global]\ncolour = 'deny'",
    "[global]\nuse = 'deny no'",
    "[world]",
    "# a comment\nthis is no document",
];

#[test]
fn what_may_not_stand_in_a_region(rt: HostRuntime) -> Result<(), Fail> {
    counts(&rt, rt.alloc(), WHOLE, 1)?;
    for more in WRONG {
        refused_with(&rt, rt.alloc(), more)?;
    }
    Ok(())
}

fn refused_with(rt: &impl Abort, alloc: Global, more: &str) -> Result<(), AllocError> {
    let mut text = String::from_str(alloc, WHOLE)?;
    text.push_str(more)?;
    refused(rt, alloc, text.as_bytes());
    Ok(())
}

const LACKING: &[&str] = &[
    " \n# nothing\n",
    "[[region]]\nid = 'a'\ncuboid = [0, 0, 0, 1, 1, 1]\n",
    "version = 3",
    "version = 0",
    "version = -1",
    "version = '1'",
    "version = 1.0",
    "version = [1]",
    "version = 1\nname = 'a'",
    "version = 1\nregion = 1",
    "version = 1\nregion = [1]",
    "version = 1\nregion = [[]]",
    "version = 1\nglobal = 1",
    "version = 1\n[[global]]",
    "version = 1\n[region]\nid = 'a'\ncuboid = [0, 0, 0, 1, 1, 1]\n",
    "version = 1\n[[region]]",
    "version = 1\n[[region]]\nid = 'a'",
    "version = 1\n[[region]]\nid = 'a'\ny = [0, 1]",
    "version = 1\n[[region]]\nid = 'a'\npolygon = [0, 0, 9, 0, 0, 9]",
    "version = 1\n[[region]]\ncuboid = [0, 0, 0, 1, 1, 1]",
    "version = 1\n[[region]]\nid = 1\ncuboid = [0, 0, 0, 1, 1, 1]",
    "version = 2\n[[region]]\nid = 'a'\ncuboid = [0, 0, 0, 1, 1, 1]\ndomains = 'works'",
    "version = 2\n[[region]]\nid = 'a'\ncuboid = [0, 0, 0, 1, 1, 1]\ndomains = ['no-name']",
    "version = 1\n[[region]]\nid = ''\ncuboid = [0, 0, 0, 1, 1, 1]",
    "version = 1\n[[region]]\nid = 'no id'\ncuboid = [0, 0, 0, 1, 1, 1]",
    "version = 1\n[[region]]\nid = '__global__'\ncuboid = [0, 0, 0, 1, 1, 1]",
    "version = 1\n[[region]]\nid = 'abcdefghijklmnopqrstuvwxyzabcdefg'\ncuboid = [0, 0, 0, 1, 1, 1]",
    "version = 1\n[[region]]\nid = 'a'\ncuboid = 1",
    "version = 1\n[[region]]\nid = 'a'\ncuboid = [0, 0, 0, 1, 1]",
    "version = 1\n[[region]]\nid = 'a'\ncuboid = [0, 0, 0, 1, 1, 1, 1]",
    "version = 1\n[[region]]\nid = 'a'\ncuboid = [[0, 0, 0], [1, 1, 1]]",
    "version = 1\n[[region]]\nid = 'a'\ncuboid = [0, 0, 0, 1, 1, 2147483648]",
    "version = 1\n[[region]]\nid = 'a'\ncuboid = [0, 0, 0, 1, 1, 1.0]",
    "version = 1\n[[region]]\nid = 'a'\ncuboid = [0, 0, 0, 1, 1, '1']",
    "version = 1\n[[region]]\nid = 'a'\ny = [0, 1]\npolygon = [0, 0, 9, 0, 0, 9, 5]",
    "version = 1\n[[region]]\nid = 'a'\ny = [0, 1]\npolygon = [0, 0, 9, 0]",
    "version = 1\n[[region]]\nid = 'a'\ny = [0, 1]\npolygon = []",
    "version = 1\n[[region]]\nid = 'a'\ny = [0, 1]\npolygon = [0, 0, 9, 0, 0, 4294967296]",
    "version = 1\n[[region]]\nid = 'a'\ny = [0]\npolygon = [0, 0, 9, 0, 0, 9]",
    "version = 1\n[[region]]\nid = 'a'\ny = [0, 1, 2]\npolygon = [0, 0, 9, 0, 0, 9]",
    "version = 1\n[[region]]\nid = 'a'\ny = 1\npolygon = [0, 0, 9, 0, 0, 9]",
    "version = 1\n[[region]]\nid = 'a'\ny = [1, 0]\npolygon = [0, 0, 9, 0, 0, 9]",
];

#[test]
fn files_that_lack_something(rt: HostRuntime) {
    for text in LACKING {
        refused(&rt, rt.alloc(), text.as_bytes());
    }
    refused(&rt, rt.alloc(), b"version = 1\n# \xff\n");
    refused(&rt, rt.alloc(), b"version = 1\n# \xe2\x82");
}

#[test]
fn a_file_has_a_limit(rt: HostRuntime) -> Result<(), Fail> {
    let alloc = rt.alloc();
    let mut text = String::from_str(alloc, "version = 1\n")?;
    for _ in 12..1_048_576 {
        text.push(' ')?;
    }
    counts(&rt, alloc, text.as_str(), 0)?;
    text.push(' ')?;
    refused(&rt, alloc, text.as_bytes());
    Ok(())
}

// Where an allocation fails, it is want of memory that is told: a run makes each fail in turn.
#[test]
fn want_of_memory_is_no_bad_file(rt: HostRuntime) {
    for text in [SPAWN, MILL] {
        match read_policy(rt.alloc(), text.as_bytes()) {
            Ok(policy) => assert!(rt; policy.regions().count() > 0),
            Err(fault) => same(&rt, &fault, &Unread::NoMemory),
        }
    }
}
