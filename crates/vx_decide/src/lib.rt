//! Decides what a subject may do at a place, and names the rule that decides.
#![tactic(auto)]

mod among;
mod answer;
mod asker;
mod building;
mod candidates;
mod contest;
mod decide;
mod effective;
mod inquiry;
mod laws;
mod plain;
mod query;
mod question;
mod rule;
mod value;
mod verdict;

pub use among::decide_among;
pub use asker::Asker;
pub use decide::Decide;
pub use laws::{
    child_stands_before_parent, decider_contains_the_place, default_only_where_nothing_is_said,
    highest_priority_decides, membership_is_grounded, nothing_said_permits, one_answer,
    one_denial_denies, taken_speaks_lowest, value_is_inherited, verdict_names_its_region,
};
pub use plain::Plain;
pub use rule::Rule;
pub use verdict::Verdict;
