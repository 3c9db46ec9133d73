//! Writing what a step makes.
ghost use Rattle.std.specs.Prelude.{◌≡◌, ℕ, ◌≤◌, List, ◌++◌, length, drop};
ghost use Rattle.rewrite.specs.Written.{together, Counts, Puts};

use query::{MAX_OPERATORS, SIGNS};

/// How many numbers a query has at most.
const MAX_SIGNS: usize = SIGNS * MAX_OPERATORS;

/// How many numbers the parts have, if there are at most `room`.
fn length_within(parts: &[&[u64]], room: usize) -> Option<usize>
    ensures { Counts (length (together parts.now)) room result }
{
    let mut left = room;
    for part in parts {
        left = left.checked_sub(part.len())?;
    }
    Some(room - left)
}

/// Writes the parts one behind another to the front of `into`.
fn copy(parts: &[&[u64]], into: &mut [u64])
    requires { length (together parts.now) ≤ length into.old }
    ensures { into.new ≡ together parts.now ++ drop (length (together parts.now)) into.old }
{
    let [part, others @ ..] = parts else {
        return;
    };
    let (front, rest) = into.split_at_mut(part.len());
    front.copy_from_slice(part);
    copy(others, rest);
}

/// Writes the parts one behind another to the front of `into`, if they fit there and are no more than a query may have.
pub fn put(parts: &[&[u64]], into: &mut [u64]) -> Option<usize>
    ensures { Puts (together parts.now) into.old into.new result }
{
    let room = into.len().min(MAX_SIGNS);
    let length = length_within(parts, room)?;
    copy(parts, into);
    Some(length)
}
