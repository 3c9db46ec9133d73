//! Gathering the rows of a region into an answer, in local memory of a size that suits them.
ghost use Rattle.std.specs.Prelude.{◌+◌, ◌*◌, ◌≤◌, length};
ghost use Rattle.circuit.specs.Lent.{SameMemory};
ghost use Rattle.gather.specs.Gathered.{region_rows, Ready, Written};
ghost use Rattle.gather.specs.Batches.{CanGather, Gathers};

use crate::batch::Batch;
use crate::merging::merge;
use crate::region::{Entry, load};
use circuit::Circuit;
use rows::Region;

const FEW: usize = 64;

const SOME: usize = 1024;

const MANY: usize = 8192;

const NONE: Entry<'static> = Entry {
    cells: &[],
    node: 0,
    place: 0,
};

/// Gathers rows by way of `entries`, of which there are enough.
// Batch, circuit and answer are three parameters, here and below: the first is read while the others are written, so one struct for
// all would be no plainer.
fn gather_by<'a>(
    batch: Batch<'a>,
    entries: &mut [Entry<'a>],
    circuit: &mut Circuit<'_>,
    out: &mut [u64],
) -> usize
    requires enough { batch.rows.count ≤ length entries.old }
    requires ready { CanGather batch circuit.old out.old }
    ensures { Gathers batch.entry circuit.old circuit.new out.old out.new result }
{
    let entries = &mut entries[0..batch.rows.count];
    load(batch, entries);
    // By place where cells are equal: rows that come together are joined in the order in which they came about.
    entries.sort_unstable_by_key(|entry| (entry.cells, entry.place));
    let count = merge(entries, batch.rows.width, circuit, out);
    out[0] = count as u64;
    count
}

/// Gathers at most 64 rows.
// Three functions, and none by a const parameter: an array of references whose length is one gets no proof, and an array of places in
// their stead took 1.8 times as long for 8,192 rows.
fn gather_few(batch: Batch<'_>, circuit: &mut Circuit<'_>, out: &mut [u64]) -> usize
    requires few { batch.rows.count ≤ 64 }
    requires ready { CanGather batch circuit.old out.old }
    ensures { Gathers batch.entry circuit.old circuit.new out.old out.new result }
{
    gather_by(batch, &mut [NONE; FEW], circuit, out)
}

/// Gathers at most 1,024 rows.
fn gather_some(batch: Batch<'_>, circuit: &mut Circuit<'_>, out: &mut [u64]) -> usize
    requires few { batch.rows.count ≤ 1024 }
    requires ready { CanGather batch circuit.old out.old }
    ensures { Gathers batch.entry circuit.old circuit.new out.old out.new result }
{
    gather_by(batch, &mut [NONE; SOME], circuit, out)
}

/// Gathers at most 8,192 rows.
fn gather_many(batch: Batch<'_>, circuit: &mut Circuit<'_>, out: &mut [u64]) -> usize
    requires { CanGather batch circuit.old out.old }
    ensures { Gathers batch.entry circuit.old circuit.new out.old out.new result }
{
    gather_by(batch, &mut [NONE; MANY], circuit, out)
}

/// Gathers the rows of a region into an answer, and says how many rows that has: it writes their number and then each row, its
/// node and its cells, in order, equal rows together. No node of the store changes, and at most one is added for each row less.
pub fn gather(work: &[u64], rows: Region, circuit: &mut Circuit<'_>, out: &mut [u64]) -> usize
    requires few { rows.count ≤ 8192 }
    requires within { (rows.width ≤ 8) × (9 * (rows.first + rows.count) ≤ length work.now) }
    requires ready { Ready (region_rows work.now rows) rows.width circuit.old.nodes.now out.old }
    ensures written { Written (region_rows work.now rows) rows.width circuit.old.nodes.now circuit.new.nodes.now
        circuit.old.hints.now circuit.new.hints.now out.old out.new result }
    ensures memory { SameMemory circuit.old circuit.new }
{
    let batch = Batch { work, rows };
    if rows.count <= FEW {
        gather_few(batch, circuit, out)
    } else if rows.count <= SOME {
        gather_some(batch, circuit, out)
    } else {
        gather_many(batch, circuit, out)
    }
}
