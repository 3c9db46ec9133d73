//! The rows of a query in a work row: nine numbers each, a node and up to eight cells.
ghost use Rattle.std.specs.Prelude.{◌≡◌, map, length};
ghost use Rattle.gather.specs.Gathered.{answer_of, region_rows};

use crate::batch::Batch;
use rows::SPAN;

/// A row of a work row: its cells that count, its node, and which of the rows that are gathered it is, from 0.
#[derive(Clone, Copy)]
pub struct Entry<'a> {
    pub cells: &'a [u64],
    pub node: u64,
    pub place: usize,
}

/// Makes `entries` the rows of a batch.
pub fn load<'a>(batch: Batch<'a>, entries: &mut [Entry<'a>])
    requires { length entries.old ≡ batch.rows.count }
    ensures { map answer_of entries.new ≡ region_rows batch.entry.work.now batch.entry.rows }
{
    // By place, and no `iter_mut`: once such a walk is zipped with another, the prover knows nothing of what it wrote.
    for (i, row) in batch.rows.part(batch.work).chunks_exact(SPAN).enumerate() {
        entries[i] = Entry {
            cells: &row[1..1 + batch.rows.width],
            node: row[0],
            place: i,
        };
    }
}
