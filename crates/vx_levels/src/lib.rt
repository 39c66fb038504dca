//! Levels of dust that are kept and made right again where something changed.
#![tactic(auto)]

mod laws;
mod linked_levels;
mod links;
mod links_nearby;
mod mapping;
mod pending;
mod repairing;
mod sight;
mod word_sheet;
mod words;

pub use laws::levels_agree;
pub use linked_levels::LinkedLevels;
pub use mapping::all_linked;
pub use repairing::repair;
