//! Copies of ways and of polynomials.
ghost use Rattle.std.specs.Prelude.{◌≡◌};
ghost use Rattle.polynomial.specs.Told.{poly};
ghost use Rattle.polynomial.specs.Ways.{monomial};

use crate::{Polynomial, Way};
use std::alloc::AllocError;

// By hand, like the next one: what a copy promises is then that it is the same monomial.
impl Clone for Way {
    ghost is_clone = { λ v w. monomial w ≡ monomial v };

    fn clone(&self) -> Result<Way, AllocError> {
        let marks = self.marks.clone()?;
        Ok(Way {
            count: self.count,
            marks,
        })
    }
}

// By hand: nothing derives the copy of a type with a ghost field.
impl Clone for Polynomial {
    ghost is_clone = { λ p q. poly q ≡ poly p };

    fn clone(&self) -> Result<Polynomial, AllocError> {
        let ways = self.ways.clone()?;
        Ok(Polynomial { ways })
    }
}
