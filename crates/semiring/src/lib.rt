//! Reading the nodes of a circuit in any semiring. `read` is proved once, for whatever implements `Semiring`; counts, levels, prices and
//! sets of cases are four that do, each with a function of its own.
#![tactic(auto)]

mod cases;
mod count;
mod errors;
mod level;
mod needed;
mod operations;
mod price;
mod reading;

pub use cases::{Sets, read_sets};
pub use count::{Counts, read_counts};
pub use errors::ReadError;
pub use level::{Levels, read_levels};
pub use operations::Semiring;
pub use price::{Prices, read_prices};
pub use reading::read;
