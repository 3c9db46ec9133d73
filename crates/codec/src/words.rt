//! Numbers of eight bytes, low byte first.
ghost use Rattle.std.specs.Prelude.{◌≡◌, ◌/◌, ◌++◌, length, OnOk};
ghost use Rattle.codec.specs.Bytes.{numbers};

use std::alloc::AllocError;

/// How many bytes a number takes.
pub const WORD: usize = 8;

/// Appends the numbers that `bytes` write. Fewer than eight bytes at the end write none.
pub fn push_words(memory: &mut Vec<u64>, bytes: &[u8]) -> Result<(), AllocError>
    ensures { OnOk result (memory.new.items
        ≡ memory.old.items ++ numbers (length bytes.now / 8) bytes.now) }
{
    let (words, _) = bytes.as_chunks::<WORD>();
    for word in words {
        memory.push(u64::from_le_bytes(*word))?;
    }
    Ok(())
}
