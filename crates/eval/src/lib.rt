//! Asks a query of tables in lent memory, and leaves the answer in lent memory: rows, each with a node that says where it comes from.
#![tactic(auto)]

mod asking;
mod refusals;
mod reply;

pub use asking::ask;
pub use reply::Refusal;
