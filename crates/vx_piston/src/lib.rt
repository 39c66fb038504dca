//! Pistons: what each would move, and which of two that want one cell has it.
#![tactic(auto)]

mod candidates;
mod claim_laws;
mod claim_table;
mod claiming;
mod laws;
mod moves;

pub use candidates::{asked_by, candidate, is_restless};
pub use claim_laws::unbeaten_moves_share_no_cell;
pub use claim_table::Claims;
pub use claiming::claims;
pub use laws::{
    moves_are_lines, moves_are_short, moves_begin_with_pistons, moves_stay_inside,
    restless_pistons_move,
};
pub use moves::{MAX_CELLS, Move};
