//! Numbers as bytes, eight each, low byte first.
ghost use Rattle.std.specs.Prelude.{◌≡◌, ◌++◌, OnOk};
ghost use Rattle.stored.specs.Form.{bytes_of, written};
ghost use Rattle.stored.specs.Reads.{NumbersRead};

use crate::FileError;
use codec::{WORD, push_words};
use std::alloc::{AllocError, Global};

/// Appends the bytes of a number.
pub(crate) fn push_number(bytes: &mut Vec<u8>, number: u64) -> Result<(), AllocError>
    ensures { OnOk result (bytes.new.items ≡ bytes.old.items ++ bytes_of 8 number) }
{
    bytes.extend_from_slice(&number.to_le_bytes())
}

/// Appends the bytes of numbers.
pub(crate) fn push_numbers(bytes: &mut Vec<u8>, numbers: &[u64]) -> Result<(), AllocError>
    ensures { OnOk result (bytes.new.items ≡ bytes.old.items ++ written numbers.now) }
{
    for number in numbers {
        push_number(bytes, *number)?;
    }
    Ok(())
}

/// The numbers that `bytes` write.
pub(crate) fn numbers_in(heap: Global, bytes: &[u8]) -> Result<Vec<u64>, FileError>
    ensures { NumbersRead bytes.now result }
{
    if bytes.len() % WORD != 0 {
        return Err(FileError::Uneven);
    }
    let mut numbers = Vec::new(heap);
    push_words(&mut numbers, bytes)?;
    Ok(numbers)
}
