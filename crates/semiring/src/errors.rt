//! Why nothing is read.
ghost use Rattle.std.specs.Prelude.{◌≡◌};
ghost use Rattle.semiring.specs.declared.errors.ReadError.TheVariants.{NoMemory as OutOfMemory, BadNode as Faulty};
ghost use Rattle.semiring.specs.Refusals.{refusal_of};

use circuit::BadNode;
use codec::Refused;
use std::alloc::AllocError;
use thiserror::Error;

/// Why nothing is read.
#[derive(Clone, Copy, PartialEq, Eq, Debug, Error)]
pub enum ReadError {
    /// There is no memory for the values.
    #[error("no memory")]
    NoMemory,
    /// The store's first node that is amiss, or the first of the nodes asked for that is not in the store.
    #[error("node {0} is amiss or not there")]
    BadNode(u64),
    /// The mark of the first node that is needed and whose mark is past the values given.
    #[error("mark {0} has no value")]
    NoValue(u64),
    /// The first node that is needed and whose value is too large.
    #[error("the value of node {0} is too large")]
    Overflow(u64),
}

impl ReadError {
    /// The number and the place of the refusal; want of memory has none.
    pub fn refusal(self) -> Option<Refused>
        ensures { result ≡ refusal_of self }
    {
        match self {
            ReadError::NoMemory => None,
            ReadError::BadNode(place) => Some(Refused { number: 7, place }),
            ReadError::NoValue(place) => Some(Refused { number: 8, place }),
            ReadError::Overflow(place) => Some(Refused { number: 9, place }),
        }
    }
}

// By hand: a derived `From` does not say which error it makes, and clauses name it.
impl From<AllocError> for ReadError {
    ghost from_gives = { λ _ r. r ≡ OutOfMemory };

    fn from(_error: AllocError) -> ReadError {
        ReadError::NoMemory
    }
}

impl From<BadNode> for ReadError {
    ghost from_gives = { λ e r. r ≡ Faulty e.place };

    fn from(error: BadNode) -> ReadError {
        ReadError::BadNode(error.place)
    }
}
