//! Why no polynomial was made.
ghost use Rattle.std.specs.Prelude.{◌≡◌};
ghost use Rattle.polynomial.specs.declared.error.PolynomialError.TheVariants.{Memory};

use std::alloc::{AllocError, AllocFailed};
use thiserror::Error;

/// Why no polynomial was made.
#[derive(Clone, Copy, PartialEq, Eq, Debug, Error)]
pub enum PolynomialError {
    /// There was no memory.
    #[error("no memory is left")]
    Memory,
    /// It takes more numbers than the room, or a count passes 2^64 - 1.
    #[error("the polynomial is larger than the room, or a count passes 2^64 - 1")]
    TooLarge,
}

// By hand: a derived `From` does not say which error it makes, and clauses name it.
impl From<AllocError> for PolynomialError {
    ghost from_gives = { λ _ e. e ≡ Memory };

    fn from(_: AllocError) -> PolynomialError {
        PolynomialError::Memory
    }
}

impl<T: Drop> From<AllocFailed<T>> for PolynomialError {
    ghost from_gives = { λ _ e. e ≡ Memory };

    fn from(_: AllocFailed<T>) -> PolynomialError {
        PolynomialError::Memory
    }
}
