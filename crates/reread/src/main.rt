//! Reads stored answers from standard input, without the tables, and prints what a rule reads for each row.
#![tactic(auto)]

use rules::{Command, Rule, line, prices, read_command};
use semiring::{ReadError, read_counts, read_levels, read_prices, read_sets};
use std::alloc::{AllocError, Global};
use std::env;
use std::io::Read;
use stored::{Answer, decode};

const USAGE: &str = "usage: reread RULE [MARK=VALUE ..] [else=VALUE] < FILE
  count            how often a row comes about; marks count 1     reread count 3=3
  level TOP        the best class of its sources; marks are TOP   reread level 3 1026=1 else=2
  price            its least price; marks cost 0                  reread price 0=5 1025=9
  sets             in which of 64 cases; marks have all bits      reread sets 1024=1 1025=2
  without MARK ..  how often, with these marks taken out          reread without 1025
A mark is 1024 x table + row, at most 7423.";

/// The words of the command.
fn words(rt: &HostRuntime) -> anyhow::Result<Vec<String>> {
    Ok(env::args(rt)?.skip(1).collect(rt.alloc())?)
}

/// The nodes of the rows of an answer.
fn asked(heap: Global, answer: &Answer) -> Result<Vec<u64>, AllocError> {
    answer
        .rows()
        .filter_map(|row| row.first().copied())
        .collect(heap)
}

/// What a rule reads for each row of an answer.
// A match on a closed enum, and no closures: prices take and give other values than the other three, so those would be no plainer.
fn worths(heap: Global, command: &Command, answer: &Answer) -> Result<Vec<Option<u64>>, ReadError> {
    let asked = &asked(heap, answer)?;
    let nodes = &answer.nodes;
    let values = &command.values;
    let numbers = match command.rule {
        Rule::Count => read_counts(heap, nodes, asked, values)?,
        Rule::Level(top) => read_levels(heap, top, nodes, asked, values)?,
        Rule::Sets => read_sets(heap, nodes, asked, values)?,
        Rule::Price => {
            let values = prices(heap, values)?;
            return read_prices(heap, nodes, asked, &values);
        }
    };
    Ok(prices(heap, &numbers)?)
}

/// Prints a line for each row of an answer, or the refusal.
fn print_answer(rt: &HostRuntime, command: &Command, answer: &Answer) -> anyhow::Result<()> {
    let heap = rt.alloc();
    let worths = match worths(heap, command, answer) {
        Ok(worths) => worths,
        Err(error) => {
            let refused = error.refusal().ok_or(error)?;
            rt.println(refused)?;
            return Ok(());
        }
    };
    for (row, worth) in answer.rows().zip(&worths) {
        let cells = row.get(1..).unwrap_or(&[]);
        rt.println(line(heap, cells, *worth)?)?;
    }
    Ok(())
}

/// Reads the command and the stored answers, and prints what is read, with an empty line between two answers.
fn run(rt: &HostRuntime) -> anyhow::Result<()> {
    let heap = rt.alloc();
    let words = words(rt)?;
    let command = match read_command(heap, &words) {
        Ok(command) => command,
        Err(error) => {
            rt.eprintln(USAGE)?;
            return Err(error.into());
        }
    };
    let mut bytes = Vec::new(heap);
    rt.stdin().read_to_end(&mut bytes)?;
    let answers = decode(heap, &bytes)?;
    for (i, answer) in answers.iter().enumerate() {
        if i > 0 {
            rt.println("")?;
        }
        print_answer(rt, &command, answer)?;
    }
    Ok(())
}

fn main(rt: HostRuntime) -> anyhow::Result<()> {
    run(&rt)
}
