use std::alloc::AllocError;

/// Why a record was not written to its end.
#[derive(Clone, Copy, Debug, PartialEq, Eq)]
pub enum RecordError {
    /// There is no memory for a line.
    NoMemory,
    /// The writer does not take a line.
    WriteFailed,
}

impl From<AllocError> for RecordError {
    ghost use Rattle.std.specs.Prelude.{◌≡◌};
    ghost use Rattle.vx_json.specs.declared.record_error.RecordError.TheVariants.{NoMemory};

    ghost from_gives = { λ _ e. e ≡ NoMemory };

    fn from(_refused: AllocError) -> RecordError {
        RecordError::NoMemory
    }
}
