//! Writing rows that are in order into an answer, equal ones together.
ghost use Rattle.std.specs.Prelude.{◌≡◌, ◌+◌, ◌*◌, ◌<◌, ◌≤◌, [], ◌∷◌, ◌++◌, map, length, drop};
ghost use Rattle.circuit.specs.Held.{count_in, Proper};
ghost use Rattle.circuit.specs.Joins.{CountsAs};
ghost use Rattle.circuit.specs.Lent.{SameMemory};
ghost use Rattle.circuit.specs.declared.Node.TheVariants.{Or};
ghost use Rattle.gather.specs.Gathered.{answer_of, answers_in, Wide, InOrder, Ready, Merged, Extended};

use crate::region::Entry;
use circuit::Circuit;
use tables::equal;

/// The node for "a or b", for which there is room.
fn join(circuit: &mut Circuit<'_>, a: u64, b: u64) -> u64
    requires store { Proper circuit.old.nodes.now }
    requires counted { (a < count_in circuit.old.nodes.now) × (b < count_in circuit.old.nodes.now) }
    requires room { 4 + 3 * count_in circuit.old.nodes.now ≤ length circuit.old.nodes.now }
    ensures store { Extended circuit.old.nodes.now circuit.new.nodes.now circuit.old.hints.now circuit.new.hints.now 1 }
    ensures counts { CountsAs circuit.old.nodes.now circuit.new.nodes.now (Or a b) result }
    ensures memory { SameMemory circuit.old circuit.new }
{
    circuit.or(a, b).unwrap()
}

/// Writes row `n` of an answer, behind the rows before it.
fn write_row(out: &mut [u64], width: usize, n: usize, row: Entry<'_>)
    requires wide { length row.cells.now ≡ width }
    requires space { 1 + (1 + width) * (n + 1) ≤ length out.old }
    ensures rows { answers_in width (n + 1) (drop 1 out.new)
        ≡ answers_in width n (drop 1 out.old) ++ answer_of row.entry ∷ [] }
    ensures behind { drop (1 + (1 + width) * (n + 1)) out.new ≡ drop (1 + (1 + width) * (n + 1)) out.old }
{
    let start = 1 + (1 + width) * n;
    out[start] = row.node;
    out[start + 1..start + 1 + width].copy_from_slice(row.cells);
}

/// Writes the rows of `entries`, which are in order, behind the first number of `out`, equal ones together; says how many.
pub fn merge(
    entries: &[Entry<'_>],
    width: usize,
    circuit: &mut Circuit<'_>,
    out: &mut [u64],
) -> usize
    requires order { InOrder (map answer_of entries.now) }
    requires wide { Wide width (map answer_of entries.now) }
    requires ready { Ready (map answer_of entries.now) width circuit.old.nodes.now out.old }
    ensures merged { Merged (map answer_of entries.now) width circuit.old.nodes.now circuit.new.nodes.now
        circuit.old.hints.now circuit.new.hints.now out.old out.new result }
    ensures memory { SameMemory circuit.old circuit.new }
{
    let [first, rest @ ..] = entries else {
        return 0;
    };
    let mut last = *first;
    let mut written = 0;
    for entry in rest {
        if equal(last.cells, entry.cells) {
            last.node = join(circuit, last.node, entry.node);
        } else {
            write_row(out, width, written, last);
            written += 1;
            last = *entry;
        }
    }
    write_row(out, width, written, last);
    written + 1
}
