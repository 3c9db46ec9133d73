//! Steps on tests.
ghost use Rattle.rewrite.specs.Written.{Makes};
ghost use Rattle.rewrite.specs.declared.Step.TheVariants.{SwapTests, TestIntoLeft, TestIntoRight, TestIntoUnion};

use crate::columns::{moved_left, reads_behind};
use crate::signs::{pair_at, query_at, select_at};
use crate::site::Site;
use crate::write::put;
use query::{Change, Operator, Pairing, SIGNS};

impl Site<'_> {
    /// Two tests change places.
    pub fn swap_tests(self, into: &mut [u64]) -> Option<usize>
        ensures { Makes SwapTests self.entry into.old into.new result }
    {
        let outer = select_at(self.at)?;
        let inner = select_at(outer.rest)?;
        put(&[self.before, inner.sign, outer.sign, inner.rest], into)
    }

    /// A test that reads only the left side of a product is made on that side.
    pub fn test_into_left(self, into: &mut [u64]) -> Option<usize>
        ensures { Makes TestIntoLeft self.entry into.old into.new result }
    {
        let selected = select_at(self.at)?;
        let product = pair_at(selected.rest, Pairing::Product)?;
        let left = query_at(self.tables, product.rest)?;
        if !selected.test.fits(left.width as u64) {
            return None;
        }
        put(
            &[self.before, product.sign, selected.sign, product.rest],
            into,
        )
    }

    /// A test that reads only the right side of a product is made on that side.
    pub fn test_into_right(self, into: &mut [u64]) -> Option<usize>
        ensures { Makes TestIntoRight self.entry into.old into.new result }
    {
        let selected = select_at(self.at)?;
        let product = pair_at(selected.rest, Pairing::Product)?;
        let left = query_at(self.tables, product.rest)?;
        if !reads_behind(selected.test, left.width as u64) {
            return None;
        }
        let test = moved_left(selected.test, left.width as u64);
        let moved = <[u64; SIGNS]>::from(Operator::One(Change::Select(test)));
        put(
            &[self.before, product.sign, left.signs, &moved, left.rest],
            into,
        )
    }

    /// A test of a union is made on both of its sides.
    pub fn test_into_union(self, into: &mut [u64]) -> Option<usize>
        ensures { Makes TestIntoUnion self.entry into.old into.new result }
    {
        let selected = select_at(self.at)?;
        let union = pair_at(selected.rest, Pairing::Union)?;
        let left = query_at(self.tables, union.rest)?;
        let test = selected.sign;
        put(
            &[self.before, union.sign, test, left.signs, test, left.rest],
            into,
        )
    }
}
