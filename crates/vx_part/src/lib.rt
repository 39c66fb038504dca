//! What each part of a machine is after a tick: dust, torches, repeaters and lamps.
#![tactic(auto)]

mod changes;
mod laws;
mod parts;
mod repeaters;

pub use changes::{change, next_parts};
pub use laws::{
    dust_keeps_torches_invert, lamps_go_out_late, other_cells_stay, parts_heed_what_is_near,
    parts_keep_their_build, parts_read_four_steps, parts_read_what_is_shown,
    repeaters_delay_and_lock,
};
pub use parts::next_part;
