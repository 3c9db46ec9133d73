//! A query as bytes: the number of its operators, and six bytes an operator, a byte a number.
ghost use Rattle.std.specs.Prelude.{◌≡◌, ◌<◌, ◌++◌, length, IfOk};
ghost use Rattle.codec.specs.Input.{read_query};
ghost use Rattle.codec.specs.Reads.{QueryRead};

use crate::input::{Decoded, InputError};
use std::alloc::{AllocError, Global};

// The limits of the byte form: a layout of its own.
const MAX_OPERATORS: u8 = 16;

const OPERATOR: usize = 6;

/// Each byte as a number.
fn widened(heap: Global, bytes: &[u8]) -> Result<Vec<u64>, AllocError>
    ensures { IfOk result (λ v. v.items ≡ bytes.now) }
{
    bytes.iter().map(|byte| u64::from(*byte)).collect(heap)
}

/// The query that `bytes` begin with, as its operators' numbers, or the operator at which it is cut off.
pub fn query_in(heap: Global, bytes: &[u8]) -> Result<Decoded<'_>, InputError>
    ensures read { QueryRead (read_query bytes.now) result }
    ensures shorter { IfOk result (λ query. length query.rest.now < length bytes.now) }
{
    let [count, rest @ ..] = bytes else {
        return Err(InputError::Operator(0));
    };
    let size = OPERATOR * *count as usize;
    match rest.split_at_checked(size) {
        Some((operators, rest)) => Ok(Decoded {
            numbers: widened(heap, operators)?,
            rest,
        }),
        None if *count > MAX_OPERATORS => Err(InputError::Operator(MAX_OPERATORS as usize)),
        None => Err(InputError::Operator(rest.len() / OPERATOR)),
    }
}
