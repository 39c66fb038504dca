//! How a sector is stored: a byte for each cell, and beside the bytes the chests and the marks of
//! components of machines, in parts and pages that copies share.
#![tactic(auto)]

mod chest_part;
mod chest_parts;
mod chests;
mod code;
mod has_chests;
mod in_order;
mod kind_marks;
mod machine_marks;
mod machine_page;
mod mark_kind;
mod marked;
mod parted;
mod put_down;
mod shared_page;
mod stack;

pub use chest_parts::ChestParts;
pub use code::{AIR, conducts, decode, encode, is_device, is_dust};
pub use machine_marks::MachineMarks;
pub use mark_kind::MarkKind;
pub use marked::marked_places;
pub use put_down::{put_marked, put_over};
pub use stack::{MAX_COUNT, SLOTS, Slot, Stack};
