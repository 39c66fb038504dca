use std::alloc::AllocError;

/// Why an opening was not made.
#[derive(Clone, Copy, Debug, PartialEq, Eq)]
pub enum OpeningError {
    /// It has more names than a world has seats: 64.
    TooManyPlayers,
    NoMemory,
}

impl From<AllocError> for OpeningError {
    ghost use Rattle.std.specs.Prelude.{◌≡◌};
    ghost use Rattle.vx_record.specs.declared.opening_error.OpeningError.TheVariants.{NoMemory};

    ghost from_gives = { λ _ e. e ≡ NoMemory };

    fn from(_refused: AllocError) -> OpeningError {
        OpeningError::NoMemory
    }
}
