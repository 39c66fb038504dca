use vx_record::Fault;

/// Why a world was not settled.
#[derive(Clone, Copy, Debug, PartialEq, Eq)]
pub enum SettleError {
    /// Its passes, its sectors and its keeper do not agree.
    Disagreement(Fault),
    NoMemory,
}
