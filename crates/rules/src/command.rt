//! What is asked, as the words of a command.
use crate::numbers::{mark, number};
use crate::{ArgumentError, Setting, values};
use std::alloc::Global;

/// By which rule provenance is read.
#[derive(Clone, Copy, PartialEq, Eq, Debug)]
pub enum Rule {
    /// How often a row comes about.
    Count,
    /// The best class of sources from which a row comes about, with the highest class.
    Level(u64),
    /// The least price of a row.
    Price,
    /// In which of 64 cases a row comes about.
    Sets,
}

/// What is asked: a rule, and the values of the marks from 0 on.
#[derive(Drop)]
pub struct Command {
    pub rule: Rule,
    pub values: Vec<u64>,
}

/// The settings that some words are.
fn settings(heap: Global, words: &[String]) -> Result<Vec<Setting>, ArgumentError> {
    words
        .iter()
        .map(|word| word.as_str().parse::<Setting>())
        .try_collect(heap)
}

/// Settings that take out the marks that some words are.
fn taken_out(heap: Global, words: &[String]) -> Result<Vec<Setting>, ArgumentError> {
    words
        .iter()
        .map(|word| mark(word.as_str()).map(|mark| Setting::Mark { mark, value: 0 }))
        .try_collect(heap)
}

/// A rule with the values that some settings give.
fn ruled(
    heap: Global,
    rule: Rule,
    default: u64,
    settings: &[Setting],
) -> Result<Command, ArgumentError> {
    let values = values(heap, default, settings)?;
    Ok(Command { rule, values })
}

/// What some words ask: `count`, `level TOP`, `price` or `sets`, and then settings; or `without` and marks.
pub fn read_command(heap: Global, words: &[String]) -> Result<Command, ArgumentError> {
    let [name, rest @ ..] = words else {
        return Err(ArgumentError::UnknownRule);
    };
    match name.as_str() {
        "count" => ruled(heap, Rule::Count, 1, &settings(heap, rest)?),
        "price" => ruled(heap, Rule::Price, 0, &settings(heap, rest)?),
        "sets" => ruled(heap, Rule::Sets, u64::MAX, &settings(heap, rest)?),
        "level" => {
            let [top, rest @ ..] = rest else {
                return Err(ArgumentError::NoTop);
            };
            let top = number(top.as_str())?;
            ruled(heap, Rule::Level(top), top, &settings(heap, rest)?)
        }
        "without" => ruled(heap, Rule::Count, 1, &taken_out(heap, rest)?),
        _ => Err(ArgumentError::UnknownRule),
    }
}
