//! Asking a query of tables in lent memory.
ghost use Rattle.std.specs.Prelude.{◌+◌, ◌*◌, ◌≤◌, length};
ghost use Rattle.eval.specs.Ask.{Ready, Readied, Given, Asked};

use crate::reply::Refusal;
use circuit::Circuit;
use engine::{run_weighed, weigh};
use gather::gather;
use query::Question;
use rows::SPAN;
use tables::fit;

/// Weights up to which hints of a size are enough, and these sizes: two hints for each node, and two nodes for each row and two more.
const TINY: usize = 32;

const TINY_HINTS: usize = 4 + 4 * TINY;

const LIGHT: usize = 128;

const LIGHT_HINTS: usize = 4 + 4 * LIGHT;

const MIDDLE: usize = 1024;

const MIDDLE_HINTS: usize = 4 + 4 * MIDDLE;

const LARGE: usize = 2048;

const LARGE_HINTS: usize = 4 + 4 * LARGE;

const HEAVY: usize = 8192;

const HEAVY_HINTS: usize = 4 + 4 * HEAVY;

/// A question, and what it weighs.
#[derive(Clone, Copy)]
struct Weighed<'a> {
    question: Question<'a>,
    weight: usize,
}

/// The question that nothing stands against, or the first refusal that applies.
fn readied<'a>(
    tables: &'a [u64],
    signs: &'a [u64],
    work: &mut [u64],
    nodes: usize,
    out: usize,
) -> Result<Weighed<'a>, Refusal>
    ensures { Readied tables.now signs.now (length work.old) nodes out result }
{
    let question = Question::read(fit(tables)?, signs)?;
    let weight = weigh(question, work).ok_or(Refusal::Weight)?;
    if work.len() < SPAN * weight {
        return Err(Refusal::Work(work.len()));
    }
    if nodes < 7 + 6 * weight {
        return Err(Refusal::Nodes(nodes));
    }
    if out < 1 + SPAN * weight {
        return Err(Refusal::Out(out));
    }
    Ok(Weighed { question, weight })
}

/// Answers a question by way of hints for all the nodes that it may need, and says how many rows the answer has.
// Three lent rows, and no struct of them, here and below: each goes on alone, to the engine, the circuit and the gathering, so one
// would be no plainer.
fn answer_by(
    asked: Weighed<'_>,
    work: &mut [u64],
    nodes: &mut [u64],
    hints: &mut [u64],
    out: &mut [u64],
) -> usize
    requires ready { Ready asked (length work.old) (length nodes.old) (length out.old) }
    requires enough { 4 + 4 * asked.weight ≤ length hints.old }
    ensures { Given asked.entry.question nodes.old nodes.new out.old out.new result }
{
    let mut circuit = Circuit { nodes, hints };
    circuit.start();
    let rows = run_weighed(asked.question, &mut circuit, work, asked.weight);
    gather(work, rows, &mut circuit, out)
}

/// Answers a question with so many hints in local memory.
fn answer_in<const HINTS: usize>(
    asked: Weighed<'_>,
    work: &mut [u64],
    nodes: &mut [u64],
    out: &mut [u64],
) -> usize
    requires ready { Ready asked (length work.old) (length nodes.old) (length out.old) }
    requires enough { (4 + 4 * asked.weight ≤ HINTS) × (HINTS ≤ 32772) }
    ensures { Given asked.entry.question nodes.old nodes.new out.old out.new result }
{
    let mut hints = [0; HINTS];
    answer_by(asked, work, nodes, &mut hints, out)
}

/// Answers a question with as much local memory as suits it.
// A chain of sizes, and no size that is computed: the length of an array is a constant, and nothing here is allocated.
fn answer(asked: Weighed<'_>, work: &mut [u64], nodes: &mut [u64], out: &mut [u64]) -> usize
    requires { Ready asked (length work.old) (length nodes.old) (length out.old) }
    ensures { Given asked.entry.question nodes.old nodes.new out.old out.new result }
{
    if asked.weight <= TINY {
        answer_in::<TINY_HINTS>(asked, work, nodes, out)
    } else if asked.weight <= LIGHT {
        answer_in::<LIGHT_HINTS>(asked, work, nodes, out)
    } else if asked.weight <= MIDDLE {
        answer_in::<MIDDLE_HINTS>(asked, work, nodes, out)
    } else if asked.weight <= LARGE {
        answer_in::<LARGE_HINTS>(asked, work, nodes, out)
    } else {
        answer_in::<HEAVY_HINTS>(asked, work, nodes, out)
    }
}

/// Asks the query that `signs` say of the tables in `tables`: leaves the nodes in `nodes` and the rows in `out`, each with its node
/// and its cells, behind their number, and says how many there are; or turns it away, with both as they were. What `work` holds
/// afterwards is left open.
pub fn ask(
    tables: &[u64],
    signs: &[u64],
    work: &mut [u64],
    nodes: &mut [u64],
    out: &mut [u64],
) -> Result<usize, Refusal>
    ensures { Asked tables.now signs.now (length work.old)
        nodes.old nodes.new out.old out.new result }
{
    let asked = readied(tables, signs, work, nodes.len(), out.len())?;
    Ok(answer(asked, work, nodes, out))
}
