//! What a player and a machine are to a region, told once more: laws that hold the definitions.
#![tactic(auto)]

mod domain;
mod standing;

pub use domain::{
    domains_are_no_players, domains_come_from_above, no_domain_changes_nothing, one_domain_joins,
};
pub use standing::owners_are_named_or_stand_there;
