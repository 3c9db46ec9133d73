//! Why words are not understood.
ghost use Rattle.std.specs.Prelude.{◌≡◌};
ghost use Rattle.rules.specs.declared.error.ArgumentError.TheVariants.{NoMemory};

use std::alloc::{AllocError, AllocFailed};
use thiserror::Error;

/// Why words are not understood.
#[derive(Clone, Copy, PartialEq, Eq, Debug, Error)]
pub enum ArgumentError {
    /// There is no memory for the values.
    #[error("no memory")]
    NoMemory,
    /// There is no word that names a rule, or the rule is not known.
    #[error("the first word is none of count, level, price, sets and without")]
    UnknownRule,
    /// The rule `level` has no highest class.
    #[error("level needs the highest class, as in level 3")]
    NoTop,
    /// A word is no `MARK=VALUE`.
    #[error("a word is no MARK=VALUE and no else=VALUE")]
    NoSetting,
    /// What stands for a number is none below 2^64.
    #[error("a mark or a value is no number below 2^64")]
    NoNumber,
    /// A mark is above 7423.
    #[error("a mark is above 7423")]
    NoMark,
}

// By hand: a derived `From` does not say which error it makes, as these two promise.
impl From<AllocError> for ArgumentError {
    ghost from_gives = { λ _ r. r ≡ NoMemory };

    fn from(_error: AllocError) -> ArgumentError {
        ArgumentError::NoMemory
    }
}

impl<T: Drop> From<AllocFailed<T>> for ArgumentError {
    ghost from_gives = { λ _ r. r ≡ NoMemory };

    fn from(_error: AllocFailed<T>) -> ArgumentError {
        ArgumentError::NoMemory
    }
}
