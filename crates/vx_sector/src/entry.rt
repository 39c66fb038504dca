use crate::cmd::Cmd;
use crate::refusal::Refusal;
use crate::reply::Reply;
use crate::seat::Seat;

/// One recorded call: who made it, what it was, and what was answered.
#[derive(Debug, PartialEq, Eq, Drop)]
pub struct Entry {
    pub seat: Seat,
    pub cmd: Cmd,
    pub answer: Result<Reply, Refusal>,
}
