//! Which moves of pistons the policy permits, and what denies the others.
#![tactic(auto)]

mod judging;
mod laws;

pub use judging::judge;
pub use laws::{
    denied_moves_beat_nothing, first_denied_cell_decides, moved_cells_are_apart, plots_hold,
};
