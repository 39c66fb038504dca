//! A view that explains while another thread is inside an edit.
use std::alloc::{AllocError, Global};
use std::process::Abort;
use std::sync::Wait;
use std::sync::atomic::{AtomicU64, Ordering};
use std::test::Fail;
use std::thread::{self, Threads};
use vx_board::{Board, Desk, View};
use vx_flag::Action;
use vx_geom::{Pos, ShapeSpec};
use vx_policy::{Edit, Policy};
use vx_region::{Name, Subject};

// How often each of the two looks, before it gives up.
const TURNS: u64 = 1_000_000_000;

const REGIONS: u32 = 2_000;

// So many questions within one edit are no accident: an edit asks for the desk's lock at once, and
// tells of its end as it has let the lock go.
const WITHIN: u64 = 8;

// What the two threads tell each other.
#[derive(Drop)]
struct Meeting {
    // Odd while an edit is under way.
    edits: AtomicU64,
    refused: AtomicU64,
    explained: AtomicU64,
    // So many questions were asked and answered within one edit.
    met: AtomicU64,
    given_up: AtomicU64,
}

impl Meeting {
    fn new() -> Meeting {
        Meeting {
            edits: AtomicU64::new(0),
            refused: AtomicU64::new(0),
            explained: AtomicU64::new(0),
            met: AtomicU64::new(0),
            given_up: AtomicU64::new(0),
        }
    }

    fn is_over(&self) -> bool {
        self.met.load(Ordering::SeqCst) != 0 || self.given_up.load(Ordering::SeqCst) != 0
    }

    // Edits again and again, each time once the view has explained twice since the last. A version
    // is kept of each policy, so that an edit has many regions to copy.
    fn edit<J: Board, R: Wait>(&self, rt: &R, alloc: Global, desk: &Desk<J, &R>) {
        let mut due = 2;
        let mut versions = Vec::new(alloc);
        for turn in 0..TURNS {
            if self.is_over() {
                return;
            }
            if due <= self.explained.load(Ordering::SeqCst) {
                if let Ok(version) = desk.fix(rt, turn) {
                    let _ = versions.push(version);
                }
                self.edit_once(rt, alloc, desk, turn as i32);
                due = self.explained.load(Ordering::SeqCst).saturating_add(2);
            }
        }
        self.given_up.store(1, Ordering::SeqCst);
    }

    fn edit_once<J: Board, R: Wait>(
        &self,
        rt: &R,
        alloc: Global,
        desk: &Desk<J, &R>,
        priority: i32,
    ) {
        if let Ok(id) = String::from_str(alloc, "r7") {
            self.edits.fetch_add(1, Ordering::SeqCst);
            let is_refused = desk.edit(rt, alloc, Edit::Priority(id, priority)).is_err();
            self.edits.fetch_add(1, Ordering::SeqCst);
            if is_refused {
                self.refused.store(1, Ordering::SeqCst);
            }
        }
    }

    fn explain<J: Board>(&self, view: &mut View<J>, bob: &Subject) {
        let mut within: u64 = 0;
        for turn in 0..TURNS {
            if self.is_over() {
                return;
            }
            let before = self.edits.load(Ordering::SeqCst);
            let told = view.explain(bob, Action::Placing, Pos::new(5, 1, 5));
            let after = self.edits.load(Ordering::SeqCst);
            let is_within = told.is_ok() && before == after && before % 2 == 1;
            within = if is_within {
                within.saturating_add(1)
            } else {
                0
            };
            if within == WITHIN {
                self.met.store(1, Ordering::SeqCst);
            }
            self.explained.store(turn, Ordering::SeqCst);
        }
        self.given_up.store(1, Ordering::SeqCst);
    }
}

/// Two threads, of which one edits and the other explains, until questions were asked and answered
/// within one edit.
pub fn explained_beside<J: Board + Send + Sync, R: Threads + Wait + Abort + Sync>(
    rt: &R,
    alloc: Global,
    desk: &Desk<J, &R>,
    view: &mut View<J>,
) -> Result<(), Fail> {
    let bob = Subject::Player(Name::read("bob")?);
    meet(rt, alloc, desk, view, &bob);
    Ok(())
}

fn meet<J: Board + Send + Sync, R: Threads + Wait + Abort + Sync>(
    rt: &R,
    alloc: Global,
    desk: &Desk<J, &R>,
    view: &mut View<J>,
    bob: &Subject,
) {
    let meeting = Meeting::new();
    thread::join(
        rt,
        || meeting.edit(rt, alloc, desk),
        || meeting.explain(view, bob),
    );
    assert!(rt; meeting.met.load(Ordering::SeqCst) == 1);
    assert!(rt; meeting.refused.load(Ordering::SeqCst) == 0);
}

/// A policy of many regions, side by side.
pub fn plots(alloc: Global) -> Result<Policy, Fail> {
    let mut policy = Policy::new(alloc)?;
    for number in 0..REGIONS {
        let edit = plot(alloc, number)?;
        policy.apply(alloc, edit).map_err(|_| "no region")?;
    }
    Ok(policy)
}

fn plot(alloc: Global, number: u32) -> Result<Edit, AllocError> {
    let (x, z) = ((number % 64 * 4) as i32, (number / 64 * 4) as i32);
    let shape = ShapeSpec::Cuboid(Pos::new(x, 0, z), Pos::new(x + 3, 63, z + 3));
    let id = format!(in alloc; "r{number}")?;
    Ok(Edit::Define(id, shape))
}
