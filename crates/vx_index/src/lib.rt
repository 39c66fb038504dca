//! The regions near a position, found by tiles, and verdicts that were given: decisions that cost
//! what is near.
#![tactic(auto)]

mod asked;
mod cache;
mod cached;
mod cut;
mod indexed;
mod kept;
mod land;
mod patch;
mod patches;
mod plot;
mod row;
mod tile;
mod touched;

pub use cache::Cache;
pub use cached::Cached;
pub use indexed::Indexed;
pub use land::Land;
