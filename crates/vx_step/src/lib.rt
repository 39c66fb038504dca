//! A tick by several workers: its sectors are shared out among threads, and what they make is put
//! together. It is the tick of `vx_tick`, whose calls are handed on here.
#![tactic(auto)]

mod cells_work;
mod ending_parts;
mod fates_work;
mod gate;
mod laws;
mod no_gate;
mod parts;
mod parts_work;
mod planning_parts;
mod point;
mod shares;
mod work;
mod workers;

pub use gate::Gate;
pub use laws::each_sector_has_one_worker;
pub use no_gate::NoGate;
pub use parts::step_parts;
pub use planning_parts::plan_parts;
pub use point::Point;
pub use shares::{each_share, in_parts, sectors_of};
pub use vx_tick::{Fate, Phase, Plan, fates, plan, step_owned, step_plain};
pub use work::Work;
pub use workers::MAX_WORKERS;
