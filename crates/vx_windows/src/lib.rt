//! The sectors of a world from one window to the next: as it opens, as each begins its next window
//! over what a tick has left, and what was written between two ticks.
#![tactic(auto)]

mod changes;
mod limits;
mod windows;
mod writes;

pub use changes::{all_fresh, cells_after, change_all, fresh_over, put_in_changes};
pub use limits::{MAX_PLAYERS, MAX_TICKS};
pub use windows::{cells_of, open_sectors, renew_sectors};
pub use writes::written;
