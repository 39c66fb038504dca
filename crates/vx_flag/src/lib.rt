//! The words of the written policy of regions: flags, states, groups, associations and actions.
#![tactic(auto)]

mod action;
mod association;
mod flag;
mod group;
mod laws;
mod setting;
mod settings;
mod state;

pub use action::Action;
pub use association::Association;
pub use flag::Flag;
pub use group::{Group, fits};
pub use laws::{
    flags_have_places, groups_complement, one_flag_changes, one_text_each, states_combine,
    texts_are_read,
};
pub use setting::Setting;
pub use settings::Settings;
pub use state::{State, strictest};
