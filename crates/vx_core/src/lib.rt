//! The core machine: a world at play whose sectors are taken for each tick and put back after it,
//! one event at a time, and the chronicle of its ticks.
#![tactic(auto)]

mod core_state;
mod event;
mod laws;
mod machine;
mod running;
mod stage;

pub use core_state::Core;
pub use event::Event;
pub use laws::{every_order_is_a_run, every_run_is_reached};
pub use running::run_core;
pub use stage::Stage;
pub use vx_record::{Chronicle, Opening, OpeningError, Tick, changes_have_leave};
