//! The binary form in which tables and queries reach the programs, and the lines that these print.
#![tactic(auto)]

mod input;
mod output;
mod query_form;
mod tables_form;
mod words;

pub use input::{Decoded, InputError};
pub use output::{Refused, push_parted};
pub use query_form::query_in;
pub use tables_form::tables_in;
pub use words::{WORD, push_words};

#[cfg(test)]
mod tests;
