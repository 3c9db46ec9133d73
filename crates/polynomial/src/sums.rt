//! Sums of polynomials.
ghost use Rattle.std.specs.Prelude.{◌≡◌, true};
ghost use Rattle.provenance.specs.Polynomial.{sum};
ghost use Rattle.polynomial.specs.Rise.{proper};
ghost use Rattle.polynomial.specs.Fronts.{Front};
ghost use Rattle.polynomial.specs.Told.{poly, Told};
ghost use Rattle.polynomial.specs.Ways.{monomials};

use crate::error::PolynomialError;
use crate::{Polynomial, Room, Way};
use std::cmp::Ordering;
use std::collections::VecDeque;
use tables::order;

/// Takes the first way of the sum of two polynomials, of which these are the ways.
// That the ways are proper stays a clause here too: a type of a deque of them would serve this function alone, and be no plainer.
fn take_first(a: &mut VecDeque<Way>, b: &mut VecDeque<Way>) -> Result<Option<Way>, PolynomialError>
    requires left { proper (monomials a.old.items) ≡ true }
    requires right { proper (monomials b.old.items) ≡ true }
    ensures { Front a.old.items b.old.items a.new.items b.new.items result }
{
    let Some(x) = a.front() else {
        return Ok(b.pop_front());
    };
    let Some(y) = b.front() else {
        return Ok(a.pop_front());
    };
    match order(&x.marks, &y.marks) {
        Ordering::Less => Ok(a.pop_front()),
        Ordering::Greater => Ok(b.pop_front()),
        Ordering::Equal => {
            let x = a.pop_front().unwrap();
            let y = b.pop_front().unwrap();
            let count = x
                .count
                .checked_add(y.count)
                .ok_or(PolynomialError::TooLarge)?;
            let marks = y.marks;
            Ok(Some(Way { count, marks }))
        }
    }
}

impl Room {
    /// The sum of two polynomials, which are used up: no way is copied.
    pub fn add(self, p: Polynomial, q: Polynomial) -> Result<Polynomial, PolynomialError>
        ensures { Told self.numbers (sum (poly p) (poly q)) result }
    {
        let mut a = VecDeque::from(p.ways);
        let mut b = VecDeque::from(q.ways);
        let mut ways = self.never()?.ways;
        let mut size = 1;
        while let Some(way) = take_first(&mut a, &mut b)? {
            size = self
                .larger(size, way.marks.len())
                .ok_or(PolynomialError::TooLarge)?;
            ways.push(way)?;
        }
        Ok(Polynomial { ways })
    }
}
