//! Steps on products and unions.
ghost use Rattle.rewrite.specs.Written.{Makes};
ghost use Rattle.rewrite.specs.declared.Step.TheVariants.{UnionOutOfLeft, UnionOutOfRight, RegroupLeft, RegroupRight, SwapUnion};

use crate::signs::{pair_at, query_at};
use crate::site::Site;
use crate::write::put;
use query::Pairing;

impl Site<'_> {
    /// The sides of a union change places.
    pub fn swap_union(self, into: &mut [u64]) -> Option<usize>
        ensures { Makes SwapUnion self.entry into.old into.new result }
    {
        let union = pair_at(self.at, Pairing::Union)?;
        let left = query_at(self.tables, union.rest)?;
        let right = query_at(self.tables, left.rest)?;
        put(
            &[self.before, union.sign, right.signs, left.signs, right.rest],
            into,
        )
    }

    /// A product with a product on its right is grouped to the left.
    pub fn regroup_left(self, into: &mut [u64]) -> Option<usize>
        ensures { Makes RegroupLeft self.entry into.old into.new result }
    {
        let outer = pair_at(self.at, Pairing::Product)?;
        let left = query_at(self.tables, outer.rest)?;
        let inner = pair_at(left.rest, Pairing::Product)?;
        put(
            &[self.before, outer.sign, inner.sign, left.signs, inner.rest],
            into,
        )
    }

    /// A product with a product on its left is grouped to the right.
    pub fn regroup_right(self, into: &mut [u64]) -> Option<usize>
        ensures { Makes RegroupRight self.entry into.old into.new result }
    {
        let outer = pair_at(self.at, Pairing::Product)?;
        let inner = pair_at(outer.rest, Pairing::Product)?;
        let left = query_at(self.tables, inner.rest)?;
        put(
            &[self.before, outer.sign, left.signs, inner.sign, left.rest],
            into,
        )
    }

    /// A union on the left side of a product becomes a union of products.
    pub fn union_out_of_left(self, into: &mut [u64]) -> Option<usize>
        ensures { Makes UnionOutOfLeft self.entry into.old into.new result }
    {
        let product = pair_at(self.at, Pairing::Product)?;
        let union = pair_at(product.rest, Pairing::Union)?;
        let left = query_at(self.tables, union.rest)?;
        let right = query_at(self.tables, left.rest)?;
        let other = query_at(self.tables, right.rest)?;
        put(
            &[
                self.before,
                union.sign,
                product.sign,
                left.signs,
                other.signs,
                product.sign,
                right.signs,
                right.rest,
            ],
            into,
        )
    }

    /// A union on the right side of a product becomes a union of products.
    pub fn union_out_of_right(self, into: &mut [u64]) -> Option<usize>
        ensures { Makes UnionOutOfRight self.entry into.old into.new result }
    {
        let product = pair_at(self.at, Pairing::Product)?;
        let other = query_at(self.tables, product.rest)?;
        let union = pair_at(other.rest, Pairing::Union)?;
        let left = query_at(self.tables, union.rest)?;
        put(
            &[
                self.before,
                union.sign,
                product.sign,
                other.signs,
                left.signs,
                product.sign,
                other.signs,
                left.rest,
            ],
            into,
        )
    }
}
