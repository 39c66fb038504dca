ghost use Rattle.std.specs.Prelude.{◌≡◌};
ghost use Rattle.vx_script.specs.Statuses.{status_of};

use std::alloc::AllocError;
use thiserror::Error;
use vx_file::FileError;
use vx_json::RecordError;
use vx_lines::ReadFailed;
use vx_session::SessionError;

/// Why a run ended before its script did. docs/FORMATS.md has the table of numbers, words and
/// statuses.
#[derive(Clone, Copy, Debug, PartialEq, Eq, Error)]
pub enum Fault {
    /// A record is as long as it may be.
    #[error("fault 13 history")]
    HistoryFull,
    #[error("fault 14 memory")]
    NoMemory,
    #[error("fault 29 players")]
    TooManyPlayers,
    /// The sector of that number differs from what the keeper of the world has of it.
    #[error("fault 30 sector {0}")]
    Torn(u32),
    /// A player's list of calls is missing.
    #[error("fault 31 pass")]
    PassMissing,
    /// What was replied differs from the record: the seat and the sector of the first call that
    /// does, or 0 and 0 where it is no call.
    #[error("fault 32 seat {0} sector {1}")]
    ListsDiffer(u8, u32),
    /// A view of the policy was not got, or told no policy.
    #[error("fault 33 view")]
    NoView,
    /// The line of this number, counted from 1, is none of the lines that may stand there.
    #[error("fault 40 line {0}")]
    Syntax(u32),
    /// The regions file is none, or one of its edits is refused.
    #[error("fault 41 regions file")]
    BadRegionFile,
    #[error("fault 42 read")]
    ReadFailed,
    #[error("fault 43 write")]
    WriteFailed,
}

impl Fault {
    /// The status that the program ends with: 2 for want of memory, else 1.
    pub fn status(self) -> u8
        ensures { result ≡ status_of self }
    {
        match self {
            Fault::NoMemory => 2,
            Fault::HistoryFull
            | Fault::TooManyPlayers
            | Fault::Torn(_)
            | Fault::PassMissing
            | Fault::ListsDiffer(_, _)
            | Fault::NoView
            | Fault::Syntax(_)
            | Fault::BadRegionFile
            | Fault::ReadFailed
            | Fault::WriteFailed => 1,
        }
    }
}

impl From<AllocError> for Fault {
    ghost use Rattle.vx_script.specs.declared.fault.Fault.TheVariants.{NoMemory};

    ghost from_gives = { λ _ e. e ≡ NoMemory };

    fn from(_refused: AllocError) -> Fault {
        Fault::NoMemory
    }
}

impl From<ReadFailed> for Fault {
    ghost use Rattle.vx_script.specs.declared.fault.Fault.TheVariants as fault;

    ghost from_gives = { λ _ e. e ≡ fault.ReadFailed };

    fn from(_failed: ReadFailed) -> Fault {
        Fault::ReadFailed
    }
}

impl From<FileError> for Fault {
    ghost use Rattle.std.specs.Prelude.{◌≡◌};
    ghost use Rattle.vx_script.specs.Statuses.{file_fault};

    ghost from_gives = { λ error e. e ≡ file_fault error };

    fn from(error: FileError) -> Fault {
        match error {
            FileError::TooLong => Fault::BadRegionFile,
            FileError::ReadFailed => Fault::ReadFailed,
            FileError::NoMemory => Fault::NoMemory,
        }
    }
}

impl From<SessionError> for Fault {
    ghost use Rattle.std.specs.Prelude.{◌≡◌};
    ghost use Rattle.vx_script.specs.Faults.{by_session};

    ghost from_gives = { λ error e. e ≡ by_session error };

    fn from(error: SessionError) -> Fault {
        match error {
            SessionError::HistoryFull => Fault::HistoryFull,
            SessionError::NoMemory => Fault::NoMemory,
            SessionError::Torn(sector) => Fault::Torn(sector),
            SessionError::PassMissing => Fault::PassMissing,
            SessionError::Differs { seat, sector } => Fault::ListsDiffer(seat, sector),
            SessionError::NoView => Fault::NoView,
        }
    }
}

impl From<RecordError> for Fault {
    ghost use Rattle.std.specs.Prelude.{◌≡◌};
    ghost use Rattle.vx_script.specs.Faults.{by_record};

    ghost from_gives = { λ error e. e ≡ by_record error };

    fn from(error: RecordError) -> Fault {
        match error {
            RecordError::NoMemory => Fault::NoMemory,
            RecordError::WriteFailed => Fault::WriteFailed,
        }
    }
}
