//! Marks for an audit of what ann and bob did, and where each list of them differs from the record.
use vx_audit::Mark::{Begin, Edit, End, Tick};
use vx_audit::{Difference, Mark};

/// Marks, and where they differ, if they do.
pub type Case = (&'static [Mark], Option<Difference>);

// A call of ann, of bob or of cyd in the western sector or in the eastern one.
const ANN_WEST: Mark = Mark::Call {
    seat: 0,
    sector: Some(0),
};

const ANN_EAST: Mark = Mark::Call {
    seat: 0,
    sector: Some(1),
};

const BOB_WEST: Mark = Mark::Call {
    seat: 1,
    sector: Some(0),
};

const BOB_EAST: Mark = Mark::Call {
    seat: 1,
    sector: Some(1),
};

const CYD_EAST: Mark = Mark::Call {
    seat: 2,
    sector: Some(1),
};

// A call that speaks of no place in the world.
const BOB_AWAY: Mark = Mark::Call {
    seat: 1,
    sector: None,
};

// No call differs, but an edit, a tick, a block, or that the marks end.
const NO_CALL: Option<Difference> = Some(Difference { seat: 0, sector: 0 });

const AT_ANN_WEST: Option<Difference> = Some(Difference { seat: 0, sector: 0 });

const AT_ANN_EAST: Option<Difference> = Some(Difference { seat: 0, sector: 1 });

const AT_BOB_WEST: Option<Difference> = Some(Difference { seat: 1, sector: 0 });

const AT_BOB_EAST: Option<Difference> = Some(Difference { seat: 1, sector: 1 });

const AT_CYD_EAST: Option<Difference> = Some(Difference { seat: 2, sector: 1 });

/// What was done; with calls of the two sectors in another order; and with a call out of the
/// world, which leaves no trace.
pub static DONE: [Case; 3] = [
    (
        &[
            ANN_WEST, BOB_EAST, BOB_WEST, ANN_EAST, Tick, Edit, BOB_EAST, Tick, ANN_WEST,
        ],
        None,
    ),
    (
        &[
            BOB_EAST, ANN_EAST, ANN_WEST, BOB_WEST, Tick, Edit, BOB_EAST, Tick, ANN_WEST,
        ],
        None,
    ),
    (
        &[
            ANN_WEST, BOB_EAST, BOB_WEST, ANN_EAST, Tick, BOB_AWAY, Edit, BOB_EAST, Tick, ANN_WEST,
        ],
        None,
    ),
];

/// Other calls.
pub static CALLS: [Case; 8] = [
    // One is left out.
    (
        &[
            BOB_EAST, BOB_WEST, ANN_EAST, Tick, Edit, BOB_EAST, Tick, ANN_WEST,
        ],
        AT_BOB_WEST,
    ),
    // One is left out, and none follows in its window.
    (
        &[
            ANN_WEST, BOB_EAST, BOB_WEST, Tick, Edit, BOB_EAST, Tick, ANN_WEST,
        ],
        NO_CALL,
    ),
    // The last of all is left out.
    (
        &[
            ANN_WEST, BOB_EAST, BOB_WEST, ANN_EAST, Tick, Edit, BOB_EAST, Tick,
        ],
        NO_CALL,
    ),
    // One too many.
    (
        &[
            ANN_WEST, BOB_EAST, BOB_WEST, ANN_EAST, BOB_EAST, Tick, Edit, BOB_EAST, Tick, ANN_WEST,
        ],
        AT_BOB_EAST,
    ),
    // One too many behind all.
    (
        &[
            ANN_WEST, BOB_EAST, BOB_WEST, ANN_EAST, Tick, Edit, BOB_EAST, Tick, ANN_WEST, ANN_EAST,
        ],
        AT_ANN_EAST,
    ),
    // Another seat.
    (
        &[
            ANN_WEST, CYD_EAST, BOB_WEST, ANN_EAST, Tick, Edit, BOB_EAST, Tick, ANN_WEST,
        ],
        AT_CYD_EAST,
    ),
    // Another sector.
    (
        &[
            ANN_WEST, BOB_EAST, BOB_EAST, ANN_EAST, Tick, Edit, BOB_EAST, Tick, ANN_WEST,
        ],
        AT_BOB_EAST,
    ),
    // Two of one sector are exchanged.
    (
        &[
            ANN_WEST, ANN_EAST, BOB_WEST, BOB_EAST, Tick, Edit, BOB_EAST, Tick, ANN_WEST,
        ],
        AT_ANN_EAST,
    ),
];

/// Other ticks and edits.
pub static TICKS: [Case; 6] = [
    // The first tick is left out.
    (
        &[
            ANN_WEST, BOB_EAST, BOB_WEST, ANN_EAST, Edit, BOB_EAST, Tick, ANN_WEST,
        ],
        AT_BOB_EAST,
    ),
    // The second is left out.
    (
        &[
            ANN_WEST, BOB_EAST, BOB_WEST, ANN_EAST, Tick, Edit, BOB_EAST, ANN_WEST,
        ],
        AT_ANN_WEST,
    ),
    // A tick too many.
    (
        &[
            ANN_WEST, BOB_EAST, BOB_WEST, ANN_EAST, Tick, Edit, BOB_EAST, Tick, ANN_WEST, Tick,
        ],
        NO_CALL,
    ),
    // The edit is left out.
    (
        &[
            ANN_WEST, BOB_EAST, BOB_WEST, ANN_EAST, Tick, BOB_EAST, Tick, ANN_WEST,
        ],
        NO_CALL,
    ),
    // An edit too many.
    (
        &[
            ANN_WEST, BOB_EAST, BOB_WEST, ANN_EAST, Tick, Edit, Edit, BOB_EAST, Tick, ANN_WEST,
        ],
        NO_CALL,
    ),
    // The edit comes before the first tick.
    (
        &[
            ANN_WEST, BOB_EAST, BOB_WEST, ANN_EAST, Edit, Tick, BOB_EAST, Tick, ANN_WEST,
        ],
        NO_CALL,
    ),
];

/// Blocks in place of single calls, with each player's in their order.
pub static BLOCKS: [Case; 3] = [
    (
        &[
            Begin, ANN_WEST, ANN_EAST, BOB_EAST, BOB_WEST, End, Tick, Edit, BOB_EAST, Tick,
            ANN_WEST,
        ],
        None,
    ),
    (
        &[
            Begin, BOB_EAST, BOB_WEST, ANN_WEST, ANN_EAST, End, Tick, Edit, BOB_EAST, Tick,
            ANN_WEST,
        ],
        None,
    ),
    (
        &[
            ANN_WEST, Begin, BOB_EAST, BOB_WEST, ANN_EAST, End, Tick, Edit, Begin, BOB_EAST, End,
            Tick, ANN_WEST, Begin, End,
        ],
        None,
    ),
];

/// Other blocks.
pub static OTHER_BLOCKS: [Case; 7] = [
    // One lacks a call that comes last in its sector.
    (
        &[
            Begin, ANN_WEST, ANN_EAST, BOB_EAST, End, Tick, Edit, BOB_EAST, Tick, ANN_WEST,
        ],
        NO_CALL,
    ),
    // One lacks a call that comes first in its sector.
    (
        &[
            Begin, ANN_EAST, BOB_EAST, BOB_WEST, End, Tick, Edit, BOB_EAST, Tick, ANN_WEST,
        ],
        NO_CALL,
    ),
    // In one a call is made twice.
    (
        &[
            Begin, ANN_WEST, ANN_EAST, BOB_EAST, BOB_EAST, BOB_WEST, End, Tick, Edit, BOB_EAST,
            Tick, ANN_WEST,
        ],
        NO_CALL,
    ),
    // One lacks a call, and another stands behind it.
    (
        &[
            Begin, ANN_WEST, BOB_EAST, BOB_WEST, End, BOB_EAST, Tick, Edit, BOB_EAST, Tick,
            ANN_WEST,
        ],
        AT_BOB_EAST,
    ),
    // One has a tick in it.
    (
        &[
            Begin, ANN_WEST, ANN_EAST, BOB_EAST, BOB_WEST, Tick, End, Edit, BOB_EAST, Tick,
            ANN_WEST,
        ],
        NO_CALL,
    ),
    // One has no end.
    (
        &[
            ANN_WEST, BOB_EAST, BOB_WEST, ANN_EAST, Tick, Edit, BOB_EAST, Tick, Begin, ANN_WEST,
        ],
        NO_CALL,
    ),
    // One has no beginning.
    (
        &[
            ANN_WEST, BOB_EAST, BOB_WEST, ANN_EAST, End, Tick, Edit, BOB_EAST, Tick, ANN_WEST,
        ],
        NO_CALL,
    ),
];
