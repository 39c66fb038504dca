use std::alloc::AllocError;
use vx_board::ViewError;

/// Why no tick was made.
#[derive(Clone, Copy, Debug, PartialEq, Eq)]
pub enum TickError {
    /// There were as many ticks as there may be: 2^40.
    HistoryFull,
    /// The sector of that number differs from what the keeper has of it.
    Torn(u32),
    /// The keeper's view of the desk told no policy.
    NoView,
    NoMemory,
}

impl From<AllocError> for TickError {
    ghost use Rattle.std.specs.Prelude.{◌≡◌};
    ghost use Rattle.vx_keeper.specs.declared.tick_error.TickError.TheVariants.{NoMemory};

    ghost from_gives = { λ _ e. e ≡ NoMemory };

    fn from(_refused: AllocError) -> TickError {
        TickError::NoMemory
    }
}

impl From<ViewError> for TickError {
    ghost use Rattle.std.specs.Prelude.{◌≡◌};
    ghost use Rattle.vx_keeper.specs.Torn.{tick_error};

    ghost from_gives = { λ error e. e ≡ tick_error error };

    fn from(error: ViewError) -> TickError {
        match error {
            ViewError::NoView => TickError::NoView,
            ViewError::NoMemory => TickError::NoMemory,
        }
    }
}
