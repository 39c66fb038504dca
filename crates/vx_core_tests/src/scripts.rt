//! Scripts, and the replies that are due.

// The lines of a script, and its replies.
pub type Script = (&'static [&'static str], &'static str);

// Who is a member of the town may break in the home that is its child.
pub static TOWN: Script = (
    &[
        "world 2 1 1",
        "player ann",
        "player bob",
        "set 5 1 5 stone",
        "region define home cuboid 4 0 4 8 63 8",
        "region define town cuboid 0 0 0 15 63 15",
        "region parent home town",
        "region member town add ann",
        "tick",
        "as bob break 5 1 5",
        "as ann break 5 1 5",
    ],
    "edit 1 region 1\n\
     edit 2 region 2\n\
     edit 3\n\
     edit 4\n\
     tick 1\n\
     refused 2 member at 1\n\
     ok member at 1\n",
);

// A plot is nobody's from the next window on.
pub static PLOT: Script = (
    &[
        "world 2 1 1",
        "player ann",
        "player bob",
        "region define plot cuboid 5 0 5 5 63 5",
        "as bob place 5 1 5 stone",
        "tick",
        "as bob place 5 2 5 stone",
    ],
    "edit 1 region 1\n\
     ok default\n\
     tick 1\n\
     refused 2 member at 1\n",
);

// Power reaches fifteen cells along dust, over the border at x 15/16.
pub static LEVER: Script = (
    &[
        "world 2 1 1",
        "player ann",
        "player bob",
        "set 5 1 5 lever:down",
        "set 6 1 5 dust",
        "set 7 1 5 dust",
        "set 8 1 5 dust",
        "set 9 1 5 dust",
        "set 10 1 5 dust",
        "set 11 1 5 dust",
        "set 12 1 5 dust",
        "set 13 1 5 dust",
        "set 14 1 5 dust",
        "set 15 1 5 dust",
        "set 16 1 5 dust",
        "set 17 1 5 dust",
        "set 18 1 5 dust",
        "set 19 1 5 dust",
        "set 20 1 5 dust",
        "set 21 1 5 dust",
        "as ann turn 5 1 5",
        "tick",
        "as ann look 6 1 5",
        "as ann look 16 1 5",
        "as ann look 20 1 5",
        "as ann look 21 1 5",
    ],
    "ok default\n\
     tick 1\n\
     seen dust:15\n\
     seen dust:5\n\
     seen dust:1\n\
     seen dust:0\n",
);

// Twelve cells of stone before a piston.
pub static PUSH: Script = (
    &[
        "world 2 1 1",
        "player ann",
        "player bob",
        "set 5 1 5 piston:east",
        "set 5 1 6 lever:down",
        "set 6 1 5 stone",
        "set 7 1 5 stone",
        "set 8 1 5 stone",
        "set 9 1 5 stone",
        "set 10 1 5 stone",
        "set 11 1 5 stone",
        "set 12 1 5 stone",
        "set 13 1 5 stone",
        "set 14 1 5 stone",
        "set 15 1 5 stone",
        "set 16 1 5 stone",
        "set 17 1 5 stone",
        "as ann turn 5 1 6",
        "tick",
        "as ann look 5 1 5",
        "as ann look 6 1 5",
        "as ann look 18 1 5",
    ],
    "ok default\n\
     tick 1\n\
     moved 5 1 5\n\
     seen piston:east:out\n\
     seen head:east:plain\n\
     seen stone\n",
);

// Thirteen.
pub static LONG_PUSH: Script = (
    &[
        "world 2 1 1",
        "player ann",
        "player bob",
        "set 5 1 5 piston:east",
        "set 5 1 6 lever:down",
        "set 6 1 5 stone",
        "set 7 1 5 stone",
        "set 8 1 5 stone",
        "set 9 1 5 stone",
        "set 10 1 5 stone",
        "set 11 1 5 stone",
        "set 12 1 5 stone",
        "set 13 1 5 stone",
        "set 14 1 5 stone",
        "set 15 1 5 stone",
        "set 16 1 5 stone",
        "set 17 1 5 stone",
        "set 18 1 5 stone",
        "as ann turn 5 1 6",
        "tick",
        "as ann look 5 1 5",
    ],
    "ok default\n\
     tick 1\n\
     seen piston:east:in\n",
);

// Two pistons that both want the cell between them.
pub static RIVALS: Script = (
    &[
        "world 2 1 1",
        "player ann",
        "player bob",
        "set 4 1 4 piston:east",
        "set 6 1 4 piston:west",
        "set 4 1 5 lever:down",
        "set 6 1 5 lever:down",
        "as ann turn 4 1 5",
        "as ann turn 6 1 5",
        "tick",
        "tick",
    ],
    "ok default\n\
     ok default\n\
     tick 1\n\
     moved 4 1 4\n\
     beaten 6 1 4 by 4 1 4\n\
     tick 2\n",
);
