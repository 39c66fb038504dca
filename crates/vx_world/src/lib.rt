//! The world that many threads share: each sector under a lock of its own, the books of two ledgers
//! under another, passes for those who play, and the settlement in the end.
#![tactic(auto)]

mod alone;
mod blanks;
mod books;
mod home;
mod lifted;
mod opening;
mod pass;
mod patience;
mod report;
mod reserve;
mod room;
mod seats;
mod settle_error;
mod settling;
mod slot;
mod taken;
mod ticking;
mod unsettled;
mod world;

pub use blanks::Blanks;
pub use lifted::Lifted;
pub use pass::Pass;
pub use report::Report;
pub use seats::Seats;
pub use settle_error::SettleError;
pub use unsettled::Unsettled;
pub use world::World;
