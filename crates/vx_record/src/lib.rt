//! What goes on record: how a world opened and its ticks since, what each player's own lists say,
//! what the world's record says of a player, and how many entries of each sector are closed.
#![tactic(auto)]

mod archive;
mod busy;
mod call;
mod call_table;
mod caller;
mod chronicle;
mod closed_windows;
mod fault;
mod kept_window;
mod knowing;
mod laws;
mod lists;
mod opening;
mod opening_error;
mod place;
mod rests;
mod saying;
mod seated;
mod settling;
mod tick;

pub use archive::Archive;
pub use busy::{busy_sectors, busy_windows};
pub use call::Call;
pub use caller::Caller;
pub use chronicle::Chronicle;
pub use closed_windows::ClosedWindows;
pub use fault::Fault;
pub use kept_window::KeptWindow;
pub use knowing::{began_with, follows};
pub use laws::{changes_have_leave, counts_go_on};
pub use lists::{Lists, is_recorded};
pub use opening::Opening;
pub use opening_error::OpeningError;
pub use place::Place;
pub use saying::says;
pub use seated::are_seated;
pub use settling::disagreement;
pub use tick::Tick;
