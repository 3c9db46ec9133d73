//! Reads tables and then queries from standard input, and answers each query: a line for each row, with the ways in which it comes
//! about. With a file named as its argument, it also writes the stored answers there.
#![tactic(auto)]

use anyhow::anyhow;
use codec::{InputError, Refused, query_in, tables_in};
use eval::ask;
use query::parse;
use std::alloc::{AllocError, Global};
use std::io::Read;
use std::{env, fs};
use stored::{Answer, NODE, encode};
use ways::{line, ways};

/// Memory for a query of weight 128: nine numbers a row, and three a node.
const WORK: usize = 1152;

const NODES: usize = 775;

const OUT: usize = 1153;

/// How many numbers the ways of one row may take.
const ROOM: usize = 65536;

/// The line of one row: its cells, and its ways.
fn row_line(heap: Global, nodes: &[u64], row: &[u64]) -> anyhow::Result<String> {
    let [node, cells @ ..] = row else {
        return Err(anyhow!("a row without a node"));
    };
    match ways(heap, nodes, *node, ROOM) {
        Ok(found) => Ok(line(heap, cells, &found)?),
        Err(error) => Ok(error.refusal().ok_or(error)?.to_string(heap)?),
    }
}

/// A count and `each` numbers for every item counted, from the front of a memory.
// It copies what there is; what reads a stored file refuses where items are not there, so one for both would be no plainer.
fn counted(heap: Global, memory: &[u64], each: usize) -> Result<Vec<u64>, AllocError> {
    let count = memory.first().map_or(0, |count| *count as usize);
    let size = each.saturating_mul(count).saturating_add(1);
    memory.iter().take(size).copied().collect(heap)
}

/// The answer that memory holds, to be stored.
fn kept(heap: Global, width: usize, nodes: &[u64], out: &[u64]) -> Result<Answer, AllocError> {
    let nodes = counted(heap, nodes, NODE)?;
    let rows = counted(heap, out, width.saturating_add(1))?;
    Ok(Answer { width, nodes, rows })
}

/// Answers one query over some tables, and adds what is to be stored of it.
fn answer(
    rt: &HostRuntime,
    tables: &[u64],
    signs: &[u64],
    answers: &mut Vec<Answer>,
) -> anyhow::Result<()> {
    let heap = rt.alloc();
    let mut work = [0; WORK];
    let mut nodes = [0; NODES];
    let mut out = [0; OUT];
    match ask(tables, signs, &mut work, &mut nodes, &mut out) {
        Err(refusal) => {
            // By hand, and no `From`: the query engine is built without the printed form, and this program owns neither type.
            rt.println(Refused {
                number: refusal.number(),
                place: refusal.place() as u64,
            })?;
        }
        Ok(count) => {
            let width = parse(tables, signs).unwrap_or(0);
            // Printed before the answer is copied to be stored: where there is no memory for the copy, its rows still stand in print.
            for row in out[1..].chunks(width.saturating_add(1)).take(count) {
                rt.println(row_line(heap, &nodes, row)?)?;
            }
            answers.push(kept(heap, width, &nodes, &out)?)?;
        }
    }
    Ok(())
}

/// Prints why input is not read.
fn print_refusal(rt: &HostRuntime, error: InputError) -> anyhow::Result<()> {
    let refused = error.refusal().ok_or(error)?;
    rt.println(refused)?;
    Ok(())
}

/// Answers the queries of the input one after the other, with an empty line between two.
fn run(rt: &HostRuntime, answers: &mut Vec<Answer>) -> anyhow::Result<()> {
    let heap = rt.alloc();
    let mut input = Vec::new(heap);
    rt.stdin().read_to_end(&mut input)?;
    let tables = match tables_in(heap, &input) {
        Ok(tables) => tables,
        Err(error) => return print_refusal(rt, error),
    };
    let mut rest = tables.rest;
    loop {
        let query = match query_in(heap, rest) {
            Ok(query) => query,
            Err(error) => return print_refusal(rt, error),
        };
        answer(rt, &tables.numbers, &query.numbers, answers)?;
        rest = query.rest;
        if rest.is_empty() {
            return Ok(());
        }
        rt.println("")?;
    }
}

/// Answers all queries, and stores the answers in the file that the arguments name, if they name one.
fn run_and_store(rt: &HostRuntime) -> anyhow::Result<()> {
    let heap = rt.alloc();
    let mut answers = Vec::new(heap);
    run(rt, &mut answers)?;
    if let Some(file) = env::args(rt)?.nth(1) {
        let bytes = encode(heap, &answers)?;
        fs::write(rt, file.as_str(), &bytes)?;
    }
    Ok(())
}

fn main(rt: HostRuntime) -> anyhow::Result<()> {
    run_and_store(&rt)
}
