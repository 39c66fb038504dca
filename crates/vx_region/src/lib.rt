//! Regions of land: their owners and members by name, the domains of their machines, and the set of
//! all regions of a world.
#![tactic(auto)]

mod block;
mod children;
mod laws;
mod region;
mod region_list;
mod region_no;
mod region_set;
mod roster;
mod searching;
mod shared_region;
mod subject;

pub use laws::{
    ancestry_is_whole, definition_adds_one, each_has_its_number, id_finds_its_region,
    name_is_added, name_is_dropped, no_cycles, one_region_changes, one_setting_changes,
    parents_are_there, removal_takes_one, stranger_at_large, world_at_large_is_kept,
};
pub use region::Region;
pub use region_no::RegionNo;
pub use region_set::RegionSet;
pub use roster::Roster;
pub use subject::Subject;
pub use vx_name::{BadId, BadName, Id, Name};
