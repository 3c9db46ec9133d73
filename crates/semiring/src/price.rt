//! The least price at which a row is to be had.
ghost use Rattle.std.specs.Prelude.{IfOk};
ghost use Rattle.semiring.specs.Algebra.{price_algebra};
ghost use Rattle.semiring.specs.Meanings.{PricesMean};
ghost use Rattle.semiring.specs.Readings.{ReadTold};
ghost use Rattle.query.proofs.Named.{price_lawful};
ghost use Rattle.std.proofs.Common.{rules};

use crate::{ReadError, Semiring, read};
use std::alloc::Global;

/// The least price at which a row is to be had, if it is to be had at all.
#[derive(Clone, Copy)]
pub struct Prices;

impl Semiring for Prices {
    type Value = Option<u64>;

    ghost algebra = { λ _. price_algebra };

    ghost lawful = { λ s. price_lawful };

    ghost admitted = { Prim.search rules };

    fn zero(&self) -> Option<u64> {
        None
    }

    fn one(&self) -> Option<u64> {
        Some(0)
    }

    fn take(&self, value: Option<u64>) -> Option<u64> {
        value
    }

    fn plus(&self, a: Option<u64>, b: Option<u64>) -> Option<Option<u64>> {
        match (a, b) {
            (None, _) => Some(b),
            (_, None) => Some(a),
            (Some(x), Some(y)) => Some(Some(x.min(y))),
        }
    }

    fn times(&self, a: Option<u64>, b: Option<u64>) -> Option<Option<u64>> {
        let (Some(x), Some(y)) = (a, b) else {
            return Some(None);
        };
        let total = x.checked_add(y)?;
        Some(Some(total))
    }
}

/// The least price of each of the nodes asked for, if that of the mark k is `values[k]`.
pub fn read_prices(
    heap: Global,
    nodes: &[u64],
    asked: &[u64],
    values: &[Option<u64>],
) -> Result<Vec<Option<u64>>, ReadError>
    ensures read { ReadTold price_algebra values.now nodes.now asked.now result }
    ensures means { IfOk result (λ xs. PricesMean values.now nodes.now asked.now xs.items) }
{
    // A function, and no member of the trait: a law there ranges over all numbers, and for sets the meaning holds below 2^64 alone.
    read(heap, &Prices, nodes, asked, values)
}
