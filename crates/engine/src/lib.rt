//! Runs a query over tables: its rows with their notes, in lent memory, and its weight.
#![tactic(auto)]

mod joins;
mod recursion;
mod stage;
mod tallying;
mod weighing;
mod whole;

pub use recursion::{Ran, run};
pub use stage::{Joining, Next, Stage};
pub use weighing::{weigh, weigh_in};
pub use whole::run_weighed;

#[cfg(test)]
mod tests;
