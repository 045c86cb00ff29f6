ghost use Rattle.std.specs.Prelude.{◌≡◌};
ghost use Rattle.outside_core.specs.declared.read_error.ReadError.TheVariants as errors;

use crate::failed::Failed;
use std::alloc::AllocError;
use thiserror::Error;

/// Why a file was not read to its end.
#[derive(Clone, Copy, Debug, PartialEq, Eq, Error)]
pub enum ReadError {
    /// A read failed.
    #[error("the file cannot be read")]
    Failed,
    /// It has more bytes than the limit.
    #[error("the file is too long")]
    TooLong,
    /// There is no memory for its bytes.
    #[error("out of memory")]
    Memory,
}

impl From<Failed> for ReadError {
    ghost from_gives = { λ _ e. e ≡ errors.Failed };

    fn from(_refused: Failed) -> ReadError {
        ReadError::Failed
    }
}

impl From<AllocError> for ReadError {
    ghost from_gives = { λ _ e. e ≡ errors.Memory };

    fn from(_refused: AllocError) -> ReadError {
        ReadError::Memory
    }
}
