//! Why no ways are given.
ghost use Rattle.std.specs.Prelude.{◌≡◌};
ghost use Rattle.ways.specs.declared.error.WaysError.TheVariants.{Node};
ghost use Rattle.ways.specs.Refusals.{refusal_of};

use circuit::BadNode;
use codec::Refused;
use thiserror::Error;

/// Why no ways are given.
#[derive(Clone, Copy, PartialEq, Eq, Debug, Error)]
pub enum WaysError {
    /// There was no memory. This has no number.
    #[error("no memory")]
    Memory,
    /// Refusal 7, at this place: the first node of the store that cannot be read; or else the node asked for, which the store
    /// does not have.
    #[error("node {0} cannot be read, or is not there")]
    Node(u64),
    /// Refusal 10, at this room and one more: the normal form takes more numbers than the room, or a count passes 2^64 - 1.
    #[error("the ways take more than {0} numbers, or a count passes 2^64 - 1")]
    Room(usize),
}

// By hand: a derived `From` does not say which error it makes, and clauses name it.
impl From<BadNode> for WaysError {
    ghost from_gives = { λ bad e. e ≡ Node bad.place };

    fn from(bad: BadNode) -> WaysError {
        WaysError::Node(bad.place)
    }
}

impl WaysError {
    /// The refusal, told by its number and its place; want of memory is none.
    pub fn refusal(self) -> Option<Refused>
        ensures { result ≡ refusal_of self }
    {
        match self {
            WaysError::Memory => None,
            WaysError::Node(place) => Some(Refused { number: 7, place }),
            WaysError::Room(room) => Some(Refused {
                number: 10,
                place: room.saturating_add(1) as u64,
            }),
        }
    }
}
