use thiserror::Error;
use vx_policy::EditRefusal;

/// Why a desk did not accept an edit. It leaves the desk as it was. Nothing here prints the words;
/// they are for callers that pass the error on.
#[derive(Clone, Copy, Debug, PartialEq, Eq, Error)]
pub enum DeskError {
    /// As many edits were accepted as may be: 2^40.
    #[error("refused 13 history")]
    HistoryFull,
    /// The rules refuse it, for this cause.
    #[error("{0}")]
    Refused(EditRefusal),
    /// Nothing stands against it, but it needs memory that was not there.
    #[error("refused 14 memory")]
    NoMemory,
}
