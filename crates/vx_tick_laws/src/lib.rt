//! The laws of a tick of machines: what the policy is asked about a move, what a move leaves in its
//! cells, and what is told of it, in a player's words.
#![tactic(auto)]

mod fates;
mod judging;
mod moves;

pub use fates::fates_are_told;
pub use judging::pistons_are_judged_by_place;
pub use moves::moves_carry_their_cells;
