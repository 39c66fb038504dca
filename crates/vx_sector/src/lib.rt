//! One sector of the world: its cells, the policy that judges its commands, and the record of them.
#![tactic(auto)]

mod acting;
mod chests;
mod cmd;
mod contents;
mod effect;
mod entry;
mod fresh;
mod judge;
mod laws;
mod refusal;
mod reply;
mod seat;
mod sector;
mod sight;
mod window;

pub use cmd::Cmd;
pub use contents::Contents;
pub use entry::Entry;
pub use fresh::Fresh;
pub use laws::{
    denied_by_the_policy, extended_pistons_stay, one_place_changes, outside_is_refused,
    putting_adds_so_many, refusal_leaves_cells, sectors_stay_whole, seeing_changes_nothing,
    shown_by_leave, taking_leaves_so_many_fewer, turning_keeps_the_facing,
};
pub use refusal::Refusal;
pub use reply::Reply;
pub use seat::Seat;
pub use sector::{MAX_ENTRIES, Sector};
pub use sight::Sight;
