//! The world at play on one thread: its sectors in their places, its players, and the desk of its
//! policy. It knows no script and no writer.
#![tactic(auto)]

pub mod laws;
mod name_index;
mod names;
mod play;
mod tick_error;
mod ticked;

pub use name_index::NameIndex;
pub use names::number_of;
pub use play::Play;
pub use tick_error::TickError;
pub use ticked::Ticked;
