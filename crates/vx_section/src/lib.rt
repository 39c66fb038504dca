//! Bytes at the places of a section, of which copies share what has not changed: one byte for all
//! places, or up to sixteen different ones with four bits a place, or a byte each.
#![tactic(auto)]

mod bytes;
mod few;
mod law;
mod pairs;
mod section;
mod sections;

pub use law::forms_go_on;
pub use section::Section;
pub use sections::Sections;
