//! Sets of indices below a bound, kept as bits in words: marks, found in order.
#![tactic(auto)]

mod lazy_page;
mod marks;
mod page;
mod words;

pub use marks::Marks;
pub use page::{PAGE, Page};
