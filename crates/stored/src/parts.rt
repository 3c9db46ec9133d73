//! The parts of the answer at the front of some numbers.
ghost use Rattle.stored.specs.Reads.{PartCut, PartsCut};

use crate::FileError;

// The stored form's own limit: a part of its layout.
const MAX_WIDTH: usize = 8;

/// How many numbers a node takes.
pub const NODE: usize = 3;

/// An answer as it stands in numbers: how many cells its rows have, and its nodes and its rows with their counts; and the numbers
/// behind it.
#[derive(Clone, Copy)]
pub(crate) struct Parts<'a> {
    pub width: usize,
    pub nodes: &'a [u64],
    pub rows: &'a [u64],
    pub rest: &'a [u64],
}

/// A count with `each` numbers for every item counted, and the numbers behind them; none if they are not all there.
fn part(numbers: &[u64], each: usize) -> Option<(&[u64], &[u64])>
    ensures { PartCut each numbers.now result }
{
    let count = *numbers.first()?;
    let size = each.checked_mul(count as usize)?.checked_add(1)?;
    numbers.split_at_checked(size)
}

/// The parts of the answer that `numbers` begin with, which is answer `place`.
pub(crate) fn cut_out(numbers: &[u64], place: u64) -> Result<Parts<'_>, FileError>
    ensures { PartsCut place numbers.now result }
{
    let [width, rest @ ..] = numbers else {
        return Err(FileError::CutOff(place));
    };
    let width = *width as usize;
    if width < 1 || width > MAX_WIDTH {
        return Err(FileError::Width(place));
    }
    let (nodes, rest) = part(rest, NODE).ok_or(FileError::CutOff(place))?;
    let (rows, rest) = part(rest, 1 + width).ok_or(FileError::CutOff(place))?;
    Ok(Parts {
        width,
        nodes,
        rows,
        rest,
    })
}
