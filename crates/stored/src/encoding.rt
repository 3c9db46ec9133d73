//! Answers written as bytes.
ghost use Rattle.std.specs.Prelude.{◌≡◌, ◌++◌, map, IfOk, OnOk};
ghost use Rattle.stored.specs.Form.{written, numbers_of, file};
ghost use Rattle.stored.specs.Reads.{held};

use crate::Answer;
use crate::numbers::{push_number, push_numbers};
use std::alloc::{AllocError, Global};

/// The eight letters of `vibrusti`, the first one lowest.
pub(crate) const MAGIC: u64 = 0x6974_7375_7262_6976;

pub(crate) const VERSION: u64 = 1;

/// Appends the bytes of one answer.
fn push_answer(bytes: &mut Vec<u8>, answer: &Answer) -> Result<(), AllocError>
    ensures { OnOk result (bytes.new.items
        ≡ bytes.old.items ++ written (numbers_of (held answer.now))) }
{
    push_number(bytes, answer.width as u64)?;
    push_numbers(bytes, answer.nodes.as_slice())?;
    push_numbers(bytes, answer.rows.as_slice())
}

/// The bytes that hold some answers. `decode` reads the same answers from them, if each has the nodes and the rows that it counts.
pub fn encode(heap: Global, answers: &[Answer]) -> Result<Vec<u8>, AllocError>
    ensures { IfOk result (λ v. v.items ≡ file (map held answers.now)) }
{
    let mut bytes = Vec::new(heap);
    push_number(&mut bytes, MAGIC)?;
    push_number(&mut bytes, VERSION)?;
    push_number(&mut bytes, answers.len() as u64)?;
    for answer in answers {
        push_answer(&mut bytes, answer)?;
    }
    Ok(bytes)
}
