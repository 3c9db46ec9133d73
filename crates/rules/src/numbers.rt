//! Numbers of the words, and prices.
ghost use Rattle.std.specs.Prelude.{◌≡◌, ◌<◌, map, IfOk, Some};
ghost use Rattle.rules.specs.Words.{NumberRead, MarkRead};

use crate::ArgumentError;
use std::alloc::{AllocError, Global};

/// The highest mark: row 255 of table 7.
pub(crate) const MAX_MARK: u64 = 7423;

/// The number that a word is.
pub(crate) fn number(word: &str) -> Result<u64, ArgumentError>
    ensures { NumberRead word.now result }
{
    word.parse::<u64>().map_err(|_| ArgumentError::NoNumber)
}

/// The mark that a word is.
pub(crate) fn mark(word: &str) -> Result<u64, ArgumentError>
    ensures { MarkRead word.now result }
{
    let mark = number(word)?;
    if mark > MAX_MARK {
        return Err(ArgumentError::NoMark);
    }
    Ok(mark)
}

/// Each number as a price.
pub fn prices(heap: Global, numbers: &[u64]) -> Result<Vec<Option<u64>>, AllocError>
    ensures { IfOk result (λ v. v.items ≡ map Some numbers.now) }
{
    numbers.iter().map(|number| Some(*number)).collect(heap)
}
