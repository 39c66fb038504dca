use crate::edit_refusal::EditRefusal;
use thiserror::Error;

/// Why an edit was not applied. Either leaves the policy as it was. Nothing here prints the words;
/// they are for callers that pass the error on.
#[derive(Clone, Copy, Debug, PartialEq, Eq, Error)]
pub enum EditError {
    /// The rules refuse it, for this cause.
    #[error("{0}")]
    Refused(EditRefusal),
    /// Nothing stands against it, but it needs memory that was not there.
    #[error("refused 14 memory")]
    NoMemory,
}
