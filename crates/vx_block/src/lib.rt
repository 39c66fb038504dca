//! The kinds of cell of a building world, what can be placed there, and the texts of both.
#![tactic(auto)]

mod cell;
mod cut;
mod delay;
mod joined;
mod kind;
mod lamp;
mod laws;
mod level;
mod mobility;
mod mount;
mod part;
mod repeater;
mod side;
mod words;

pub use cell::Cell;
pub use delay::Delay;
pub use kind::Kind;
pub use lamp::Lamp;
pub use laws::{number_of_cells, one_text_each};
pub use level::Level;
pub use mobility::Mobility;
pub use mount::Mount;
pub use part::Part;
pub use repeater::Repeater;
pub use side::Side;
