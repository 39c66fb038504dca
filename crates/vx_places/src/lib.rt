//! Sets of positions of a world, kept as marks by sector.
#![tactic(auto)]

mod area;
mod around;
mod laws;
mod places;

pub use laws::{no_steps_is_one_place, one_step_is_one_more};
pub use places::Places;
