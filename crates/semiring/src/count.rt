//! How often a row comes about.
ghost use Rattle.std.specs.Prelude.{IfOk};
ghost use Rattle.semiring.specs.Algebra.{count_algebra};
ghost use Rattle.semiring.specs.Meanings.{CountsMean};
ghost use Rattle.semiring.specs.Readings.{ReadTold};
ghost use Rattle.query.proofs.Named.{count_lawful};
ghost use Rattle.std.proofs.Common.{rules};

use crate::{ReadError, Semiring, read};
use std::alloc::Global;

/// How often a row comes about.
#[derive(Clone, Copy)]
pub struct Counts;

impl Semiring for Counts {
    type Value = u64;

    ghost algebra = { λ _. count_algebra };

    ghost lawful = { λ s. count_lawful };

    ghost admitted = { Prim.search rules };

    fn zero(&self) -> u64 {
        0
    }

    fn one(&self) -> u64 {
        1
    }

    fn take(&self, value: u64) -> u64 {
        value
    }

    fn plus(&self, a: u64, b: u64) -> Option<u64> {
        a.checked_add(b)
    }

    fn times(&self, a: u64, b: u64) -> Option<u64> {
        a.checked_mul(b)
    }
}

/// How often each of the nodes asked for comes about, if the mark k is there `values[k]` times.
pub fn read_counts(
    heap: Global,
    nodes: &[u64],
    asked: &[u64],
    values: &[u64],
) -> Result<Vec<u64>, ReadError>
    ensures read { ReadTold count_algebra values.now nodes.now asked.now result }
    ensures means { IfOk result (λ xs. CountsMean values.now nodes.now asked.now xs.items) }
{
    // A function, and no member of the trait: a law there ranges over all numbers, and for sets the meaning holds below 2^64 alone.
    read(heap, &Counts, nodes, asked, values)
}
