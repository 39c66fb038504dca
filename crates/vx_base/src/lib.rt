//! What every crate stands on: why nothing was read, small numbers in digits, whether a word is
//! some text, and lemmas on lists, known bytes and signed numbers.
#![tactic(auto)]

mod digits;
mod spelling;
mod unread;

pub use digits::{read_small, small_word};
pub use spelling::is_spelled;
pub use unread::Unread;
