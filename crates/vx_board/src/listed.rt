use crate::board::Board;
use crate::edited::Edited;
use crate::front::Front;

/// The answer of a desk to an accepted edit, with the list of accepted edits that it stands last
/// in.
#[derive(Drop)]
pub struct Listed<J: Board> {
    pub edited: Edited,
    pub front: Front<J>,
}
