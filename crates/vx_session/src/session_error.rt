use std::alloc::AllocError;
use vx_board::ViewError;
use vx_keeper::TickError;
use vx_record::Fault;
use vx_world::SettleError;

/// Why a session ends before all was done.
#[derive(Clone, Copy, Debug, PartialEq, Eq)]
pub enum SessionError {
    /// A record is as long as it may be.
    HistoryFull,
    NoMemory,
    /// The sector of that number differs from what the keeper has of it.
    Torn(u32),
    /// A pass of the world is missing.
    PassMissing,
    /// What was answered differs from the record: the seat and the sector of the first call that
    /// does, or 0 and 0 where it is no call.
    Differs { seat: u8, sector: u32 },
    /// A view of the desk was not got, or told no policy.
    NoView,
}

impl SessionError {
    /// Something else than a call differs.
    pub(crate) fn elsewhere() -> SessionError {
        SessionError::Differs { seat: 0, sector: 0 }
    }
}

impl From<AllocError> for SessionError {
    ghost use Rattle.std.specs.Prelude.{◌≡◌};
    ghost use Rattle.vx_session.specs.declared.session_error.SessionError.TheVariants.{NoMemory};

    ghost from_gives = { λ _ e. e ≡ NoMemory };

    fn from(_refused: AllocError) -> SessionError {
        SessionError::NoMemory
    }
}

impl From<TickError> for SessionError {
    ghost use Rattle.std.specs.Prelude.{◌≡◌};
    ghost use Rattle.vx_session.specs.Errors.{by_tick};

    ghost from_gives = { λ error e. e ≡ by_tick error };

    fn from(error: TickError) -> SessionError {
        match error {
            TickError::HistoryFull => SessionError::HistoryFull,
            TickError::Torn(sector) => SessionError::Torn(sector),
            TickError::NoView => SessionError::NoView,
            TickError::NoMemory => SessionError::NoMemory,
        }
    }
}

impl From<ViewError> for SessionError {
    ghost use Rattle.std.specs.Prelude.{◌≡◌};
    ghost use Rattle.vx_session.specs.Errors.{by_view};

    ghost from_gives = { λ error e. e ≡ by_view error };

    fn from(error: ViewError) -> SessionError {
        match error {
            ViewError::NoView => SessionError::NoView,
            ViewError::NoMemory => SessionError::NoMemory,
        }
    }
}

impl From<SettleError> for SessionError {
    ghost use Rattle.std.specs.Prelude.{◌≡◌};
    ghost use Rattle.vx_session.specs.Errors.{by_settlement};

    ghost from_gives = { λ error e. e ≡ by_settlement error };

    fn from(error: SettleError) -> SessionError {
        match error {
            SettleError::Disagreement(Fault::PassMissing) => SessionError::PassMissing,
            SettleError::Disagreement(Fault::Torn(sector)) => SessionError::Torn(sector),
            SettleError::Disagreement(Fault::ListsDiffer(seat, sector)) => {
                SessionError::Differs { seat, sector }
            }
            SettleError::NoMemory => SessionError::NoMemory,
        }
    }
}
