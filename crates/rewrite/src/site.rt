//! A place in a query, at which a step is made.
use tables::Tables;

/// A place in a query: the tables, the signs before it, and the signs from it on.
#[derive(Clone, Copy)]
pub struct Site<'a> {
    pub tables: Tables<'a>,
    pub before: &'a [u64],
    pub at: &'a [u64],
}
