//! The best class of sources from which a row comes about.
ghost use Rattle.std.specs.Prelude.{IfOk};
ghost use Rattle.semiring.specs.Algebra.{level_algebra};
ghost use Rattle.semiring.specs.Meanings.{LevelsMean};
ghost use Rattle.semiring.specs.Readings.{ReadTold};
ghost use Rattle.query.proofs.Named.{level_lawful};
ghost use Rattle.std.proofs.Common.{rules};

use crate::{ReadError, Semiring, read};
use std::alloc::Global;

/// The best class of sources from which a row comes about: 0 is none, and `top` the highest.
#[derive(Clone, Copy)]
pub struct Levels {
    pub top: u64,
}

impl Semiring for Levels {
    type Value = u64;

    ghost algebra = { λ s. level_algebra s.top };

    ghost lawful = { λ s. level_lawful s.top };

    ghost admitted = { Prim.search rules };

    fn zero(&self) -> u64 {
        0
    }

    fn one(&self) -> u64 {
        self.top
    }

    fn take(&self, value: u64) -> u64 {
        value.min(self.top)
    }

    fn plus(&self, a: u64, b: u64) -> Option<u64> {
        Some(a.max(b))
    }

    fn times(&self, a: u64, b: u64) -> Option<u64> {
        Some(a.min(b))
    }
}

/// The class of each of the nodes asked for, if that of the mark k is `values[k]`; a class above `top` is read as `top`.
pub fn read_levels(
    heap: Global,
    top: u64,
    nodes: &[u64],
    asked: &[u64],
    values: &[u64],
) -> Result<Vec<u64>, ReadError>
    ensures read { ReadTold (level_algebra top) values.now nodes.now asked.now result }
    ensures means { IfOk result (λ xs. LevelsMean top values.now nodes.now asked.now xs.items) }
{
    // A function, and no member of the trait: a law there ranges over all numbers, and for sets the meaning holds below 2^64 alone.
    read(heap, &Levels { top }, nodes, asked, values)
}
