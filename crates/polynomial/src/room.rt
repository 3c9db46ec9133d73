//! What a polynomial may take, and the polynomials with one way or none.
ghost use Rattle.std.specs.Prelude.{◌≡◌, ◌+◌, ◌<◌, ◌≤◌, true, [], ◌∷◌};
ghost use Rattle.std.specs.Option.{SomeIff};
ghost use Rattle.provenance.specs.Polynomial.{Polynomials, only as of_mark};
ghost use Rattle.polynomial.specs.Rise.{rise};
ghost use Rattle.polynomial.specs.Told.{Told};
ghost use Rattle.polynomial.specs.Ways.{monomial};

use crate::error::PolynomialError;
use crate::{Polynomial, Way};
use std::alloc::Global;

/// What a polynomial may take: memory, and so many numbers.
#[derive(Clone, Copy)]
pub struct Room {
    /// The memory that it is made in.
    pub heap: Global,
    /// The most numbers that it may take when it is written.
    pub numbers: usize,
}

impl Room {
    /// The size of a polynomial of this size with one way more, unless it passes the room.
    pub(crate) fn larger(self, size: usize, marks: usize) -> Option<usize>
        ensures { SomeIff result (2 + marks + size ≤ self.numbers) (2 + marks + size) }
    {
        let grown = size.checked_add(2)?.checked_add(marks)?;
        (grown <= self.numbers).then_some(grown)
    }

    /// The polynomial with no way.
    pub fn never(self) -> Result<Polynomial, PolynomialError>
        ensures { Told self.numbers [] result }
    {
        if self.numbers == 0 {
            return Err(PolynomialError::TooLarge);
        }
        let ways = Vec::new(self.heap);
        Ok(Polynomial { ways })
    }

    /// The polynomial with one way.
    pub(crate) fn only(self, way: Way) -> Result<Polynomial, PolynomialError>
        requires some { 0 < way.count }
        requires rises { rise way.marks.items ≡ true }
        ensures { Told self.numbers (monomial way ∷ []) result }
    {
        self.larger(1, way.marks.len())
            .ok_or(PolynomialError::TooLarge)?;
        let ways = vec![in self.heap; way]?;
        Ok(Polynomial { ways })
    }

    /// The polynomial with one way, which takes no mark.
    pub fn always(self) -> Result<Polynomial, PolynomialError>
        ensures { Told self.numbers Polynomials.one result }
    {
        let marks = Vec::new(self.heap);
        self.only(Way { count: 1, marks })
    }

    /// The polynomial of a mark: one way, which takes that mark.
    pub fn mark(self, mark: u64) -> Result<Polynomial, PolynomialError>
        ensures { Told self.numbers (of_mark mark) result }
    {
        let marks = vec![in self.heap; mark]?;
        self.only(Way { count: 1, marks })
    }
}
