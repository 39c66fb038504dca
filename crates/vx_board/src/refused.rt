use crate::board::Board;
use crate::desk_error::DeskError;
use crate::front::Front;

/// Why a desk did not accept an edit, with the list of accepted edits that it was judged on.
#[derive(Drop)]
pub struct Refused<J: Board> {
    pub error: DeskError,
    pub front: Front<J>,
}
