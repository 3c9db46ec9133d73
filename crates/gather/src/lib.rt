//! Gathering the rows that a query gives into its answer.
#![tactic(auto)]

mod batch;
mod gathering;
mod merging;
mod region;

pub use gathering::gather;

#[cfg(test)]
mod tests;
