//! The cells of one sector of the world, and the chests in it; the map of all sectors.
#![tactic(auto)]

mod cells;
mod frozen;
mod laws;
mod puts;
mod same;
mod stored;
mod whole;

pub use cells::Cells;
pub use frozen::Frozen;
pub use laws::{equal_is_the_same, other_blocks_stay, put_cell_is_read, set_block_is_read};
pub use puts::set_all;
pub use same::is_same;
pub use vx_store::{MAX_COUNT, SLOTS, Slot, Stack};
pub use whole::Whole;
