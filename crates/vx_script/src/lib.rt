//! The script: from the bytes of a script to the bytes of its replies.
#![tactic(auto)]

mod block;
mod body;
mod ending;
mod fault;
mod header;
pub mod laws;
mod playing;
mod reading;
mod regions;
mod running;
mod stage;

pub use fault::Fault;
pub use regions::{read_regions, regions_file};
pub use running::run;
