//! Where a tick has to look, by levels that are kept and made right again.
#![tactic(auto)]

mod anew;
mod heeders;
mod kept_dust;
mod laws;
mod look;
mod sight;
mod telling;
mod unrest;
mod waking;
mod watch;

pub use anew::linked_anew;
pub use kept_dust::KeptDust;
pub use laws::{
    maps_stay_still, parts_heed_power, tables_mirror_cells, tables_stay_mirrors, watches_stay,
};
pub use look::Look;
pub use unrest::unsettled;
pub use waking::Waking;
pub use watch::Watch;
