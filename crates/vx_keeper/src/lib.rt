//! The keeper of a world: what it knows of each sector between two ticks, the ticks that it makes
//! of sectors that were taken out of their locks, and the chronicle of these. It knows no lock.
#![tactic(auto)]

mod busy;
mod keeper;
mod known;
mod marked;
mod next_window;
mod places;
mod ready;
mod ready_at_rest;
mod ready_for_busy;
mod sector_marks;
mod sound;
mod tick_error;
mod work;

pub use keeper::Keeper;
pub use known::Known;
pub use marked::Marked;
pub use next_window::NextWindow;
pub use places::Places;
pub use ready::Ready;
pub use ready_at_rest::ReadyAtRest;
pub use ready_for_busy::ReadyForBusy;
pub use tick_error::TickError;
pub use work::Work;
