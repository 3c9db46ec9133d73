//! Queries rewritten on their operators, one step at a time, so that no row's provenance changes.
#![tactic(auto)]

mod applying;
mod columns;
mod products;
mod projections;
mod selections;
mod signs;
mod site;
mod write;

pub use applying::apply;

/// A step, made at the operator at which its pattern begins.
#[derive(Clone, Copy)]
pub enum Step {
    /// Two tests change places.
    SwapTests,
    /// A test that reads only the left side of a product is made on that side.
    TestIntoLeft,
    /// A test that reads only the right side of a product is made on that side.
    TestIntoRight,
    /// A test of a union is made on both of its sides.
    TestIntoUnion,
    /// A union on the left side of a product becomes a union of products.
    UnionOutOfLeft,
    /// A union on the right side of a product becomes a union of products.
    UnionOutOfRight,
    /// A product with a product on its right is grouped to the left.
    RegroupLeft,
    /// A product with a product on its left is grouped to the right.
    RegroupRight,
    /// The sides of a union change places.
    SwapUnion,
    /// A test of the columns that a projection keeps is made before it.
    TestBelowProjection,
    /// Two projections become one.
    JoinProjections,
}

#[cfg(test)]
mod tests;
