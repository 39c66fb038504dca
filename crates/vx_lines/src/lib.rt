//! The lines of a script, cut from the bytes of a reader. Nothing is known here of what a line
//! means, and nothing is written.
#![tactic(auto)]

mod input;
mod line_error;
mod lines;
mod read_failed;
mod reads;

pub use input::MAX_SCRIPT_BYTES;
pub use line_error::LineError;
pub use lines::{Lines, MAX_LINE_BYTES};
pub use read_failed::ReadFailed;
pub use reads::Reads;
