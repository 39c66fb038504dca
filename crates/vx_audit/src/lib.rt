//! Whether the record of a world says what was told of each deed in it, so that all of it is what
//! the one-threaded game gives.
#![tactic(auto)]

mod counts;
mod difference;
mod following;
mod fronts;
mod laws;
mod mark;
mod walk;
mod windows;

pub use difference::Difference;
pub use following::follow;
pub use laws::{blocks_have_an_order, records_have_leave};
pub use mark::Mark;
