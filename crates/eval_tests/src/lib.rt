//! Tests of asking, at its edges.
#![tactic(auto)]

#[cfg(test)]
mod tests;
