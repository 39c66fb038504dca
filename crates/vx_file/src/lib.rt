//! The regions file: a written policy in TOML. docs/FORMATS.md has its keys.
#![tactic(auto)]

mod document;
mod edits;
mod file_error;
mod file_version;
mod flags;
mod keys;
mod policy;
mod reading;
mod shapes;
mod tables;
mod values;

pub use file_error::FileError;
pub use policy::read_policy;
pub use reading::read_bytes;
