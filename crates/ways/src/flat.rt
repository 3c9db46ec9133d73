//! Ways as numbers.
ghost use Rattle.std.specs.Prelude.{◌≡◌, length, IfOk};
ghost use Rattle.polynomial.specs.Rise.{size_of};
ghost use Rattle.polynomial.specs.Ways.{monomials};
ghost use Rattle.ways.specs.Numbers.{numbers_of};

use polynomial::Way;
use std::alloc::{AllocError, Global};

/// Ways as numbers: how many there are, and for each its count, the number of its marks, and its marks.
/// These are as many as the room that the ways take.
pub fn numbers(heap: Global, ways: &[Way]) -> Result<Vec<u64>, AllocError>
    ensures written { IfOk result (λ v. v.items ≡ numbers_of (monomials ways.now)) }
    ensures long { IfOk result (λ v. length v.items ≡ size_of (monomials ways.now)) }
{
    let mut out = vec![in heap; ways.len() as u64]?;
    for way in ways {
        out.push(way.count)?;
        out.push(way.marks.len() as u64)?;
        out.extend_from_slice(&way.marks)?;
    }
    Ok(out)
}
