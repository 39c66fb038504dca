use std::alloc::AllocError;
use vx_lines::ReadFailed;

/// Why the bytes of a regions file were not read.
#[derive(Clone, Copy, Debug, PartialEq, Eq)]
pub enum FileError {
    /// It has more bytes than it may have.
    TooLong,
    /// A read failed, or there were more of them than there may be.
    ReadFailed,
    NoMemory,
}

impl From<AllocError> for FileError {
    ghost use Rattle.std.specs.Prelude.{◌≡◌};
    ghost use Rattle.vx_file.specs.declared.file_error.FileError.TheVariants.{NoMemory};

    ghost from_gives = { λ _ e. e ≡ NoMemory };

    fn from(_refused: AllocError) -> FileError {
        FileError::NoMemory
    }
}

impl From<ReadFailed> for FileError {
    ghost use Rattle.std.specs.Prelude.{◌≡◌};
    ghost use Rattle.vx_file.specs.declared.file_error.FileError.TheVariants as error;

    ghost from_gives = { λ _ e. e ≡ error.ReadFailed };

    fn from(_failed: ReadFailed) -> FileError {
        FileError::ReadFailed
    }
}
