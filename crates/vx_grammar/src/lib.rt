//! What a line of a script says: its words and their meaning. No world and no writer is known here.
#![tactic(auto)]

mod arguments;
mod edit_reading;
mod line;
mod number;
mod reading;
mod words;

pub use line::Line;
pub use reading::read_line;
