//! Why bytes are not read as stored answers.
ghost use Rattle.std.specs.Prelude.{◌≡◌};
ghost use Rattle.stored.specs.declared.error.FileError.TheVariants.{NoMemory};

use std::alloc::{AllocError, AllocFailed};
use thiserror::Error;

/// Why bytes are not read as stored answers. Answers are counted from 0.
#[derive(Clone, Copy, PartialEq, Eq, Debug, Error)]
pub enum FileError {
    /// There is no memory for the answers.
    #[error("no memory")]
    NoMemory,
    /// The number of bytes is no multiple of eight.
    #[error("the file is damaged: its length is no multiple of eight")]
    Uneven,
    /// The bytes do not begin with the word `vibrusti`, a version and a count.
    #[error("the file holds no stored answers")]
    NotStored,
    /// The version is another than 1.
    #[error("the file has another version than 1")]
    Version(u64),
    /// The rows of this answer have no width of 1 to 8.
    #[error("the file is damaged: an answer has no width of 1 to 8")]
    Width(u64),
    /// This answer is cut off.
    #[error("the file is damaged: an answer is cut off")]
    CutOff(u64),
    /// Something follows the last answer.
    #[error("the file is damaged: something follows the last answer")]
    LeftOver,
}

// By hand: a derived `From` does not say which error it makes, and clauses name it.
impl From<AllocError> for FileError {
    ghost from_gives = { λ _ r. r ≡ NoMemory };

    fn from(_error: AllocError) -> FileError {
        FileError::NoMemory
    }
}

impl<T: Drop> From<AllocFailed<T>> for FileError {
    ghost from_gives = { λ _ r. r ≡ NoMemory };

    fn from(_error: AllocFailed<T>) -> FileError {
        FileError::NoMemory
    }
}
