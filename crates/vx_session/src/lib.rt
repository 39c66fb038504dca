//! Sessions: what is done on the world that threads share by one who reads it line by line, with
//! the proof in the end that all answers were those of the rules.
#![tactic(auto)]

mod calling;
mod explaining;
mod fronts;
mod halving;
mod marking;
mod opening;
mod player;
mod request;
mod seating;
mod session;
mod session_error;
mod settling;
mod together;

pub use request::Request;
pub use session::Session;
pub use session_error::SessionError;
