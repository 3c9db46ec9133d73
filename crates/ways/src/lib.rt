//! The ways in which a row comes about: the normal form of a node of a circuit, within a room, and how it is written.
#![tactic(auto)]

mod error;
mod expansion;
mod flat;
mod passes;
mod root;
mod text;

pub use error::WaysError;
pub use expansion::ways;
pub use flat::numbers;
pub use text::line;

#[cfg(test)]
mod tests;
