//! The signals of redstone: what dust links to, what feeds it, and what its power reaches.
#![tactic(auto)]

mod columns;
mod dust;
mod fed_dust;
mod laws;
mod level_table;
mod leveled;
mod links_nearby;
mod nearby;
mod next_dust;
mod places;
mod power;
mod region;
mod sheet;
mod signals;
mod spread;

pub use fed_dust::add_all_fed;
pub use laws::{
    dust_points_as_it_joins, levels_are_local, levels_are_walks, links_lead_back,
    signals_heed_what_was_turned, signals_see_few_steps, signals_see_what_is_shown,
};
pub use level_table::Levels;
pub use leveled::Leveled;
pub use links_nearby::{links_beside, links_down, links_up, may_climb, may_fall};
pub use nearby::{is_next_idle, next_cell};
pub use next_dust::{dust_at, dust_over, dust_under};
pub use places::{place_beside, place_over, place_under};
pub use power::{activates, active, powered};
pub use sheet::{SHEET_SIDE, column, is_place, sheet_number};
pub use signals::{has_feeder, has_feeder_within};
pub use spread::{FED, all_levels, levels};
