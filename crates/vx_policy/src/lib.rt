//! The written policy as it is edited: what an edit asks for, why it may be refused, and what it
//! leaves.
#![tactic(auto)]

mod changes;
mod chart;
mod edit;
mod edit_error;
mod edit_refusal;
mod land_after;
mod laws;
mod listing;
mod policy;
mod reshaped;
mod unset;
mod version;

pub use edit::Edit;
pub use edit_error::EditError;
pub use edit_refusal::EditRefusal;
pub use laws::{
    edits_in_turn, flags_survive_a_reshape, numbers_are_never_given_twice, one_region_is_edited,
    refused_by_the_first_cause, world_at_large_is_apart,
};
pub use listing::Listing;
pub use policy::Policy;
pub use version::Version;
