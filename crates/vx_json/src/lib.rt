//! The record of a world as lines of JSON, and the words of commands, positions and fates in it.
#![tactic(auto)]

mod call_object;
mod command_words;
mod fate_line;
mod fate_object;
pub mod laws;
mod objects;
mod place;
mod record_error;
mod texts;
mod writing;

pub use command_words::CommandWords;
pub use fate_line::FateLine;
pub use place::Place;
pub use record_error::RecordError;
pub use writing::write_record;
