//! A semiring that the layers below know nothing of: two readings in one, written as a test that a new one needs no change there.
#![tactic(auto)]

ghost use Rattle.pair.specs.Pairs.{paired};
ghost use Rattle.pair.specs.Paired.{paired_lawful};

use semiring::Semiring;

/// Two semirings as one: what a row is worth in the first, and what in the second.
#[derive(Clone, Copy)]
pub struct Pair<A, B> {
    pub first: A,
    pub second: B,
}

impl<A: Semiring, B: Semiring> Semiring for Pair<A, B> {
    type Value = (A::Value, B::Value);

    ghost algebra = { λ s. paired (A.Semiring.algebra s.first) (B.Semiring.algebra s.second) };

    ghost lawful = { λ s.
        paired_lawful (A.Semiring.algebra s.first) (B.Semiring.algebra s.second)
        (A.Semiring.lawful s.first) (B.Semiring.lawful s.second) };

    ghost admitted = { λ s x. (A.Semiring.admitted s.first x.0, B.Semiring.admitted s.second x.1) };

    fn zero(&self) -> (A::Value, B::Value) {
        (self.first.zero(), self.second.zero())
    }

    fn one(&self) -> (A::Value, B::Value) {
        (self.first.one(), self.second.one())
    }

    fn take(&self, value: (A::Value, B::Value)) -> (A::Value, B::Value) {
        (self.first.take(value.0), self.second.take(value.1))
    }

    fn plus(
        &self,
        a: (A::Value, B::Value),
        b: (A::Value, B::Value),
    ) -> Option<(A::Value, B::Value)> {
        let first = self.first.plus(a.0, b.0)?;
        let second = self.second.plus(a.1, b.1)?;
        Some((first, second))
    }

    fn times(
        &self,
        a: (A::Value, B::Value),
        b: (A::Value, B::Value),
    ) -> Option<(A::Value, B::Value)> {
        let first = self.first.times(a.0, b.0)?;
        let second = self.second.times(a.1, b.1)?;
        Some((first, second))
    }
}

#[cfg(test)]
mod tests;
