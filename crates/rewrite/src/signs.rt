//! The operators and queries at the front of some signs.
ghost use Rattle.std.specs.Prelude.{◌≡◌, ◌<◌, length, take, MatchOption};
ghost use Rattle.tables.specs.Tables.{widths_in};
ghost use Rattle.rewrite.specs.Written.{Selects, Projects, Pairs, Takes};

use query::{Change, Operator, Pairing, Reading, SIGNS, Test, next_operator, read_front};
use tables::Tables;

/// A selection: its own signs, its test, and the signs after it.
// This and the two structs below share two fields; in a generic one `selected.test` would be a field for anything, and no plainer.
#[derive(Clone, Copy)]
pub struct Selected<'a> {
    pub sign: &'a [u64],
    pub test: Test,
    pub rest: &'a [u64],
}

/// A projection: its own signs, how many columns it keeps and which, and the signs after it.
// A count beside an array: this is how the memory holds a projection, and nothing here allocates.
#[derive(Clone, Copy)]
pub struct Projected<'a> {
    pub sign: &'a [u64],
    pub kept: u64,
    pub columns: [u64; 4],
    pub rest: &'a [u64],
}

impl Projected<'_> {
    /// The columns that the projection keeps, if it has so many.
    pub fn kept_columns(&self) -> Option<&[u64]>
        ensures { MatchOption result (length self.now.columns < self.now.kept) (λ x. x.now ≡ take self.now.kept self.now.columns) }
    {
        self.columns.get(..self.kept as usize)
    }
}

/// A product or a union: its own signs, and the signs after it.
#[derive(Clone, Copy)]
pub struct Paired<'a> {
    pub sign: &'a [u64],
    pub rest: &'a [u64],
}

/// A whole query: its signs, its width, and the signs after it.
#[derive(Clone, Copy)]
pub struct Inner<'a> {
    pub signs: &'a [u64],
    pub width: usize,
    pub rest: &'a [u64],
}

/// The selection at the front of `signs`, if one stands there.
// This and the two functions below differ in the pattern that they match; one that took the pattern as a closure would be no plainer.
pub fn select_at(signs: &[u64]) -> Option<Selected<'_>>
    ensures { Selects signs.now result }
{
    let next = next_operator(signs)?;
    let Operator::One(Change::Select(test)) = next.operator else {
        return None;
    };
    Some(Selected {
        sign: &signs[..SIGNS],
        test,
        rest: next.rest,
    })
}

/// The projection at the front of `signs`, if one stands there.
pub fn project_at(signs: &[u64]) -> Option<Projected<'_>>
    ensures { Projects signs.now result }
{
    let next = next_operator(signs)?;
    let Operator::One(Change::Project(kept, columns)) = next.operator else {
        return None;
    };
    Some(Projected {
        sign: &signs[..SIGNS],
        kept,
        columns,
        rest: next.rest,
    })
}

/// The product or the union at the front of `signs`, as `pairing` says, if one stands there.
pub fn pair_at(signs: &[u64], pairing: Pairing) -> Option<Paired<'_>>
    ensures { Pairs signs.now pairing result }
{
    let next = next_operator(signs)?;
    match next.operator {
        Operator::Two(found) if found == pairing => Some(Paired {
            sign: &signs[..SIGNS],
            rest: next.rest,
        }),
        _ => None,
    }
}

/// The query at the front of `signs`, if one can be read there.
pub fn query_at<'a>(tables: Tables<'_>, signs: &'a [u64]) -> Option<Inner<'a>>
    ensures { Takes (widths_in tables.entry.memory.now) signs.now result }
{
    let Reading { width, rest } = read_front(tables.memory, signs).ok()?;
    let signs = &signs[..signs.len() - rest.len()];
    Some(Inner { signs, width, rest })
}
