//! In which of 64 cases a row comes about.
ghost use Rattle.std.specs.Prelude.{IfOk};
ghost use Rattle.semiring.specs.Algebra.{set_algebra};
ghost use Rattle.semiring.specs.Meanings.{SetsMean};
ghost use Rattle.semiring.specs.Readings.{ReadTold};
ghost use Rattle.query.proofs.Named.{sets_lawful};
ghost use Rattle.std.proofs.Common.{rules};

use crate::{ReadError, Semiring, read};
use std::alloc::Global;

/// In which of 64 cases a row comes about: a set of cases, with a bit for each.
#[derive(Clone, Copy)]
pub struct Sets;

impl Semiring for Sets {
    type Value = u64;

    ghost algebra = { λ _. set_algebra };

    ghost lawful = { λ s. sets_lawful };

    ghost admitted = { Prim.search rules };

    fn zero(&self) -> u64 {
        0
    }

    fn one(&self) -> u64 {
        u64::MAX
    }

    fn take(&self, value: u64) -> u64 {
        value
    }

    fn plus(&self, a: u64, b: u64) -> Option<u64> {
        Some(a | b)
    }

    fn times(&self, a: u64, b: u64) -> Option<u64> {
        Some(a & b)
    }
}

/// The cases in which each of the nodes asked for comes about, if the mark k is there in the cases `values[k]`.
pub fn read_sets(
    heap: Global,
    nodes: &[u64],
    asked: &[u64],
    values: &[u64],
) -> Result<Vec<u64>, ReadError>
    ensures read { ReadTold set_algebra values.now nodes.now asked.now result }
    ensures means { IfOk result (λ xs. SetsMean values.now nodes.now asked.now xs.items) }
{
    // A function, and no member of the trait: a law there ranges over all numbers, and for sets the meaning holds below 2^64 alone.
    read(heap, &Sets, nodes, asked, values)
}
