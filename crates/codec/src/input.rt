//! What is read off the front of bytes, and why it is not.
ghost use Rattle.std.specs.Prelude.{◌≡◌};
ghost use Rattle.codec.specs.Reads.{refusal_of};
ghost use Rattle.codec.specs.declared.input.InputError.TheVariants.{NoMemory};

use crate::Refused;
use std::alloc::{AllocError, AllocFailed};
use thiserror::Error;

/// What bytes begin with, as numbers, and the bytes after it.
#[derive(Drop)]
pub struct Decoded<'a> {
    pub numbers: Vec<u64>,
    pub rest: &'a [u8],
}

/// Why bytes are not read.
#[derive(Clone, Copy, PartialEq, Eq, Debug, Error)]
pub enum InputError {
    /// There is no memory for the numbers.
    #[error("no memory")]
    NoMemory,
    /// The first table that does not fit.
    #[error("table {0} does not fit")]
    Table(usize),
    /// The operator at which a query is cut off.
    #[error("the query is cut off at operator {0}")]
    Operator(usize),
}

impl InputError {
    /// The number and the place of the refusal; want of memory has none.
    pub fn refusal(self) -> Option<Refused>
        ensures { result ≡ refusal_of self }
    {
        match self {
            InputError::NoMemory => None,
            InputError::Table(table) => Some(Refused {
                number: 1,
                place: table as u64,
            }),
            InputError::Operator(operator) => Some(Refused {
                number: 2,
                place: operator as u64,
            }),
        }
    }
}

// By hand: a derived `From` does not say which error it makes, and clauses name it.
impl From<AllocError> for InputError {
    ghost from_gives = { λ _ r. r ≡ NoMemory };

    fn from(_error: AllocError) -> InputError {
        InputError::NoMemory
    }
}

impl<T: Drop> From<AllocFailed<T>> for InputError {
    ghost from_gives = { λ _ r. r ≡ NoMemory };

    fn from(_error: AllocFailed<T>) -> InputError {
        InputError::NoMemory
    }
}
