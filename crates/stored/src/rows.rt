//! The rows of a stored answer.
ghost use Rattle.stored.specs.Rows.{RowFound, RowsLeft};

use crate::Answer;
use std::slice::ChunksExact;

impl Answer {
    /// The rows, one after the other: each its node, and then its cells.
    pub fn rows(&self) -> ChunksExact<'_, u64>
        ensures { RowsLeft self.now result }
    {
        let rows = self.rows.as_slice().get(1..).unwrap_or(&[]);
        rows.chunks_exact(self.width.saturating_add(1))
    }

    /// Row `i`, from 0: its node, and then its cells; none if it is not there.
    pub fn row(&self, i: usize) -> Option<&[u64]>
        ensures { RowFound self.now i result }
    {
        // By its places, and no `rows().nth(i)`: tried, and the proof did not close where a row takes more numbers than a machine counts.
        let size = self.width.checked_add(1)?;
        let start = size.checked_mul(i)?.checked_add(1)?;
        let end = start.checked_add(size)?;
        self.rows.as_slice().get(start..end)
    }
}
