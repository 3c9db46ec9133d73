//! Products of polynomials.
ghost use Rattle.std.specs.Prelude.{◌≡◌, true, [], ◌∷◌};
ghost use Rattle.provenance.specs.Polynomial.{multiplied};
ghost use Rattle.polynomial.specs.Rise.{proper};
ghost use Rattle.polynomial.specs.Told.{poly, Told};
ghost use Rattle.polynomial.specs.Ways.{monomial, monomials, times};

use crate::error::PolynomialError;
use crate::marks::merge;
use crate::{Polynomial, Room, Way};

// That the ways are proper is a clause of two functions here, and no type: nothing else would take one of borrowed ways.
impl Room {
    /// The product of two polynomials with one way each.
    fn multiply_only(self, x: &Way, y: &Way) -> Result<Polynomial, PolynomialError>
        requires left { proper (monomial x.now ∷ []) ≡ true }
        requires right { proper (monomial y.now ∷ []) ≡ true }
        ensures { Told self.numbers (times (monomial x.now) (monomial y.now) ∷ []) result }
    {
        let count = x
            .count
            .checked_mul(y.count)
            .ok_or(PolynomialError::TooLarge)?;
        let marks = merge(self.heap, &x.marks, &y.marks)?;
        self.only(Way { count, marks })
    }

    /// The product of two polynomials whose ways stand in two slices. A row of products does not rise in general, so the ways of
    /// the left side are cut in halves, and the products of the halves added; once it has a single way, the sides change places.
    /// No sum of some of the products is larger than the whole, so one that passes the room is refused at once.
    fn multiply_ways(self, a: &[Way], b: &[Way]) -> Result<Polynomial, PolynomialError>
        requires left { proper (monomials a.now) ≡ true }
        requires right { proper (monomials b.now) ≡ true }
        ensures { Told self.numbers (multiplied (monomials a.now) (monomials b.now)) result }
    {
        match (a, b) {
            ([], _) | (_, []) => self.never(),
            ([x], [y]) => self.multiply_only(x, y),
            ([_], _) => self.multiply_ways(b, a),
            _ => {
                let (front, back) = a.split_at(a.len() / 2);
                let p = self.multiply_ways(front, b)?;
                let q = self.multiply_ways(back, b)?;
                self.add(p, q)
            }
        }
    }

    /// The product of two polynomials.
    pub fn multiply(self, p: &Polynomial, q: &Polynomial) -> Result<Polynomial, PolynomialError>
        ensures { Told self.numbers (multiplied (poly p.now) (poly q.now)) result }
    {
        self.multiply_ways(&p.ways, &q.ways)
    }
}
