//! The laws of redstone machines: what holds of each part and each piston, in a player's words and
//! in both directions.
#![tactic(auto)]

mod blocks;
mod lamps;
mod levels;
mod movers;
mod repeaters;
mod rivals;
mod signals;
mod wires;

pub use blocks::{blocks_conduct_and_move, sides_lie_and_delays_last};
pub use lamps::{lamps_light_and_go_out, levers_and_pistons_stay};
pub use levels::levels_near_are_those_of_the_map;
pub use movers::{
    active_pistons_push, each_move_is_a_piston, others_do_not_move, unpowered_pistons_draw,
};
pub use repeaters::{repeaters_count_to_the_end, repeaters_follow_what_is_behind, repeaters_lock};
pub use rivals::first_rivals_beat;
pub use signals::{activity_has_a_cause, conductors_have_power, dust_is_fed, power_is_given};
pub use wires::{dust_joins_these, dust_links_to_these};
