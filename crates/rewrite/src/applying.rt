//! One step on a whole query in memory.
ghost use Rattle.rewrite.specs.Outcome.{Steps};
ghost use Rattle.rewrite.specs.Written.{Makes};

use crate::Step;
use crate::site::Site;
use query::{SIGNS, parse};
use tables::fit;

impl Site<'_> {
    /// Makes a step at the query at this place, and writes what stands before it, what is made of it, and what comes after it.
    // A match on the kinds of steps: the caller gives the step as a value of a closed enum, so closures in its place would be no plainer.
    fn make(self, step: Step, into: &mut [u64]) -> Option<usize>
        ensures { Makes step self.entry into.old into.new result }
    {
        match step {
            Step::SwapTests => self.swap_tests(into),
            Step::TestIntoLeft => self.test_into_left(into),
            Step::TestIntoRight => self.test_into_right(into),
            Step::TestIntoUnion => self.test_into_union(into),
            Step::UnionOutOfLeft => self.union_out_of_left(into),
            Step::UnionOutOfRight => self.union_out_of_right(into),
            Step::RegroupLeft => self.regroup_left(into),
            Step::RegroupRight => self.regroup_right(into),
            Step::SwapUnion => self.swap_union(into),
            Step::TestBelowProjection => self.test_below_projection(into),
            Step::JoinProjections => self.join_projections(into),
        }
    }
}

/// Rewrites the query `signs` by one step at the operator `place`, counted from 0, into the front of `into`, and tells how many
/// numbers it wrote. `None`, with `into` as it was, where a table does not fit, `signs` is no query, the step's pattern does not
/// stand at that operator, or the new query has more than 16 operators or does not fit into `into`.
pub fn apply(
    tables: &[u64],
    signs: &[u64],
    step: Step,
    place: usize,
    into: &mut [u64],
) -> Option<usize>
    ensures { Steps tables.now signs.now step place into.old into.new result }
{
    let tables = fit(tables).ok()?;
    parse(tables.memory, signs).ok()?;
    if place >= signs.len() / SIGNS {
        return None;
    }
    let (before, at) = signs.split_at(SIGNS * place);
    let site = Site { tables, before, at };
    site.make(step, into)
}
