//! The stored form of answers: bytes that hold the rows of answers with their nodes, to be read without the tables.
#![tactic(auto)]

mod decoding;
mod encoding;
mod error;
mod numbers;
mod parts;
mod round_trip;
mod rows;

pub use decoding::decode;
pub use encoding::encode;
pub use error::FileError;
pub use parts::NODE;
pub use round_trip::reads_back;

// Flat numbers, with a count in front: that is the layout of the stored form.
/// The stored answer to a query: the width of its rows, and its nodes and its rows as memory holds them.
#[derive(Drop)]
pub struct Answer {
    /// How many cells a row has, 1 to 8.
    pub width: usize,
    /// The number of nodes, and then three numbers for each.
    pub nodes: Vec<u64>,
    /// The number of rows, and then for each its node and its cells.
    pub rows: Vec<u64>,
}
