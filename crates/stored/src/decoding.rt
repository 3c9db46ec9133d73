//! Answers read from bytes.
ghost use Rattle.std.specs.Prelude.{◌≡◌, map, IfOk};
ghost use Rattle.stored.specs.Form.{file};
ghost use Rattle.stored.specs.Reads.{read_file, read_numbers, FileRead, held, held_in};

use crate::encoding::{MAGIC, VERSION};
use crate::numbers::numbers_in;
use crate::parts::{Parts, cut_out};
use crate::{Answer, FileError};
use std::alloc::{AllocError, Global};

/// An answer whose parts are known.
fn owned(heap: Global, parts: Parts<'_>) -> Result<Answer, AllocError>
    ensures { IfOk result (λ a. held a ≡ held_in parts.entry) }
{
    let nodes = Vec::from_slice(heap, parts.nodes)?;
    let rows = Vec::from_slice(heap, parts.rows)?;
    Ok(Answer {
        width: parts.width,
        nodes,
        rows,
    })
}

/// The answers that some numbers are.
fn answers_in(heap: Global, numbers: &[u64]) -> Result<Vec<Answer>, FileError>
    ensures { FileRead (read_numbers numbers.now) result }
{
    let [magic, version, count, rest @ ..] = numbers else {
        return Err(FileError::NotStored);
    };
    if *magic != MAGIC {
        return Err(FileError::NotStored);
    }
    if *version != VERSION {
        return Err(FileError::Version(*version));
    }
    let mut answers = Vec::new(heap);
    let mut rest = rest;
    // A count of answers, and no list of them: each one's own numbers say where the next begins, and a damaged one is told by its place.
    for place in 0..*count {
        let parts = cut_out(rest, place)?;
        answers.push(owned(heap, parts)?)?;
        rest = parts.rest;
    }
    if !rest.is_empty() {
        return Err(FileError::LeftOver);
    }
    Ok(answers)
}

/// The answers that `bytes` hold, or why they hold none. No other bytes hold the same answers.
pub fn decode(heap: Global, bytes: &[u8]) -> Result<Vec<Answer>, FileError>
    ensures read { FileRead (read_file bytes.now) result }
    ensures only { IfOk result (λ v. bytes.now ≡ file (map held v.items)) }
{
    let numbers = numbers_in(heap, bytes)?;
    answers_in(heap, numbers.as_slice())
}
