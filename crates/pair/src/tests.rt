//! Counts and prices in one reading, and levels beside both.
use crate::Pair;
use semiring::{Counts, Levels, Prices, ReadError, read};
use std::test::Fail;

/// Marks 0 and 1; 2 is one or the other, and 3 is both.
const NODES: [u64; 13] = [4, 2, 0, 0, 2, 1, 0, 3, 0, 1, 4, 0, 1];

#[test]
fn counts_with_prices(rt: HostRuntime) -> Result<(), Fail> {
    let both = Pair {
        first: Counts,
        second: Prices,
    };
    let values = [(2, Some(5)), (3, Some(u64::MAX))];
    let sum = read(rt.alloc(), &both, &NODES, &[2], &values)?;
    assert_eq!(rt; sum.as_slice(), [(5, Some(5))].as_slice());
    let dear = read(rt.alloc(), &both, &NODES, &[3], &values).err();
    assert_eq!(rt;
        dear,
        Some(ReadError::Overflow(3)),
        "the price is too large"
    );
    Ok(())
}

#[test]
fn levels_beside_them(rt: HostRuntime) -> Result<(), Fail> {
    let all = Pair {
        first: Levels { top: 3 },
        second: Pair {
            first: Counts,
            second: Prices,
        },
    };
    let values = [(9, (2, Some(5))), (1, (3, None))];
    let rows = read(rt.alloc(), &all, &NODES, &[2, 3], &values)?;
    assert_eq!(rt;
        rows.as_slice(),
        [(3, (5, Some(5))), (1, (6, None))].as_slice()
    );
    Ok(())
}
