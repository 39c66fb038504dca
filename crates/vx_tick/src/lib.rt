//! A tick: every component becomes its next part, and pistons move where the policy permits it and
//! no other piston has the cells.
#![tactic(auto)]

mod effects;
mod ending;
mod fate;
mod finishing;
mod found;
mod laws;
mod leaving;
mod next_parts;
mod phase;
mod planned;
mod planning;
mod seen;
mod standing;
mod start;
mod stepping;
mod worked;

pub use ending::{denials, fates, fates_by};
pub use fate::Fate;
pub use finishing::{finished, kept, undisturbed};
pub use found::{Found, sort_moves};
pub use laws::{heads_stay_with_pistons, parts_become_next, there_is_one_tick, ticks_by_position};
pub use phase::Phase;
pub use planned::Plan;
pub use planning::{plan, plan_by};
pub use start::Start;
pub use stepping::{moved, step_owned, step_plain};
