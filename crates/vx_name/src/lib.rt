//! Names of players and ids of regions, as words that a text spells; lists of names, and numbers by
//! ids, both of which copies share.
#![tactic(auto)]

mod has_ids;
mod id;
mod id_numbers;
mod id_part;
mod laws;
mod name;
mod name_set;
mod parted;
mod word;

pub use id::{BadId, Id};
pub use id_numbers::IdNumbers;
pub use laws::words_read_as_themselves;
pub use name::{BadName, Name};
pub use name_set::NameSet;
