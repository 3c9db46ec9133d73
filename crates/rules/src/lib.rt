//! What is asked of stored answers, as words, and the lines in which it is answered.
#![tactic(auto)]

mod command;
mod error;
mod giving;
mod numbers;
mod setting;
mod text;

pub use command::{Command, Rule, read_command};
pub use error::ArgumentError;
pub use giving::values;
pub use numbers::prices;
pub use setting::Setting;
pub use text::line;
