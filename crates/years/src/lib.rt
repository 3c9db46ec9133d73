//! The years in which a row holds: a semiring that the layers below know nothing of, written as a test that a new one needs no
//! change there.
#![tactic(auto)]

ghost use Rattle.years.specs.Years.{year_algebra};
ghost use Rattle.std.proofs.Common.{◌∙◌, mod-eq_of_lt, arith, rules};
ghost use Rattle.std.proofs.lemmas.Nat.{and_mask, or_lt};
ghost use Rattle.std.specs.Int.Bits.{and_lt};
ghost use Rattle.query.proofs.Named.{sets_lawful};
ghost use Rattle.years.specs.YearsSemiringLemmas.{wide};

use semiring::Semiring;

/// In which of 32 years a row holds, with a bit for each.
// Beside the sets of 64 cases, and no generic one: this crate shows that a new semiring needs no change below, which that would be.
#[derive(Clone, Copy)]
pub struct Years;

impl Semiring for Years {
    type Value = u32;

    ghost algebra = { λ _. year_algebra };

    ghost lawful = { λ s.
        record {
          zero_in = omega arith;
          one_in = omega arith;
          plus_in = λ a b A B. or_lt 32 a b A B;
          times_in = λ a b A B. and_lt 32 a b A B;
          plus_swap = λ a b A B. sets_lawful.plus_swap a b (wide a A) (wide b B);
          plus_group = λ a b c A B C. sets_lawful.plus_group a b c (wide a A) (wide b B) (wide c C);
          plus_zero = λ a A. sets_lawful.plus_zero a (wide a A);
          times_swap = λ a b A B. sets_lawful.times_swap a b (wide a A) (wide b B);
          times_group = λ a b c A B C. sets_lawful.times_group a b c (wide a A) (wide b B) (wide c C);
          times_one = λ a A. and_mask a 32 ∙ mod-eq_of_lt A;
          times_zero = λ a A. sets_lawful.times_zero a (wide a A);
          spread = λ a b c A B C. sets_lawful.spread a b c (wide a A) (wide b B) (wide c C);
        } };

    ghost admitted = { Prim.search rules };

    fn zero(&self) -> u32 {
        0
    }

    fn one(&self) -> u32 {
        u32::MAX
    }

    fn take(&self, value: u32) -> u32 {
        value
    }

    fn plus(&self, a: u32, b: u32) -> Option<u32> {
        Some(a | b)
    }

    fn times(&self, a: u32, b: u32) -> Option<u32> {
        Some(a & b)
    }
}

#[cfg(test)]
mod tests;
