//! The desk: where edits of the written policy are accepted, in order, and versions of it are
//! fixed. Readers see what was accepted without waiting.
#![tactic(auto)]

mod acceptance;
mod board;
mod desk;
mod desk_error;
mod desk_state;
mod edited;
mod first;
mod front;
mod head;
mod listed;
mod locked;
mod naming;
mod opened;
mod posted;
mod refused;
mod told;
mod view;
mod view_error;

pub use board::Board;
pub use desk::{Desk, MAX_VIEWS};
pub use desk_error::DeskError;
pub use desk_state::DeskState;
pub use edited::Edited;
pub use front::Front;
pub use listed::Listed;
pub use naming::Naming;
pub use opened::Opened;
pub use posted::Posted;
pub use refused::Refused;
pub use view::View;
pub use view_error::ViewError;
