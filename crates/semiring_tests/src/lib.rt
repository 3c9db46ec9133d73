//! Tests of the readings in counts, levels, prices and sets.
#![tactic(auto)]

#[cfg(test)]
mod refusals;
#[cfg(test)]
mod ships;
