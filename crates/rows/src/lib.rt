//! Rows with notes in lent memory, and what each operator of a query makes of them.
#![tactic(auto)]

mod behind;
mod cells;
mod counting;
mod each;
mod memory;
mod notes;
mod pairs;
mod scans;
mod sheet;
mod store;

pub use counting::count_pairs;
pub use each::append_each;
pub use memory::{Region, Row, SPAN, Used, put, row_at};
pub use notes::{Annotate, Unannotated};
pub use pairs::append_pairs;
pub use scans::append_table;
pub use sheet::Sheet;
