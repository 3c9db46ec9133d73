//! The worked example, ships and the holders of their licences, in every semiring.
use semiring::{read_counts, read_levels, read_prices, read_sets};
use std::test::Fail;

/// Marks 0 to 3 are the ships with their licences, and 1024 to 1026 the licences with their holders.
const NODES: [u64; 52] = [
    17, 2, 0, 0, 2, 1, 0, 2, 2, 0, 2, 3, 0, 2, 1024, 0, 2, 1025, 0, 2, 1026, 0, // 0 to 6: the marks
    4, 0, 4, 4, 1, 5, 3, 7, 8, // 9: ship 7 and holder 40
    4, 1, 6, // 10: ship 7 and holder 50
    4, 2, 5, 4, 3, 5, 3, 11, 12, // 13: ship 8 and holder 40
    4, 2, 6, 4, 3, 6, 3, 14, 15, // 16: ship 8 and holder 50
];

const ROWS: [u64; 4] = [9, 10, 13, 16];

#[test]
fn counts(rt: HostRuntime) -> Result<(), Fail> {
    let mut values = [1; 1027];
    let all = read_counts(rt.alloc(), &NODES, &ROWS, &values)?;
    assert_eq!(rt; all.as_slice(), [2, 1, 2, 2].as_slice(), "every row once");
    values[1025] = 0;
    let without = read_counts(rt.alloc(), &NODES, &ROWS, &values)?;
    assert_eq!(rt;
        without.as_slice(),
        [1, 1, 0, 2].as_slice(),
        "without row 1025"
    );
    values[1025] = 1;
    values[3] = 3;
    let more = read_counts(rt.alloc(), &NODES, &ROWS, &values)?;
    assert_eq!(rt;
        more.as_slice(),
        [2, 1, 4, 4].as_slice(),
        "row 3 three times"
    );
    Ok(())
}

#[test]
fn levels(rt: HostRuntime) -> Result<(), Fail> {
    let mut values = [2; 1027];
    values[0] = 3;
    values[1024] = 3;
    values[1026] = 1;
    let levels = read_levels(rt.alloc(), 3, &NODES, &ROWS, &values)?;
    assert_eq!(rt; levels.as_slice(), [3, 1, 2, 1].as_slice());
    values[0] = 4;
    values[1024] = u64::MAX;
    let capped = read_levels(rt.alloc(), 3, &NODES, &ROWS, &values)?;
    assert_eq!(rt; capped.as_slice(), [3, 1, 2, 1].as_slice(), "above the top");
    Ok(())
}

#[test]
fn prices(rt: HostRuntime) -> Result<(), Fail> {
    let mut values = [None; 1027];
    values[0] = Some(5);
    values[1] = Some(1);
    values[2] = Some(4);
    values[3] = Some(2);
    values[1024] = Some(1);
    values[1025] = Some(9);
    values[1026] = Some(6);
    let prices = read_prices(rt.alloc(), &NODES, &ROWS, &values)?;
    let expected = [Some(6), Some(7), Some(11), Some(8)];
    assert_eq!(rt; prices.as_slice(), expected.as_slice());
    values[1026] = None;
    let fewer = read_prices(rt.alloc(), &NODES, &ROWS, &values)?;
    let expected = [Some(6), None, Some(11), None];
    assert_eq!(rt;
        fewer.as_slice(),
        expected.as_slice(),
        "row 1026 is not to be had"
    );
    Ok(())
}

#[test]
fn one_row_that_suffices(rt: HostRuntime) -> Result<(), Fail> {
    let mut values = [u64::MAX; 1027];
    values[1024] = 1;
    values[1025] = 2;
    values[1026] = 4;
    let sets = read_sets(rt.alloc(), &NODES, &ROWS, &values)?;
    assert_eq!(rt; sets.as_slice(), [3, 4, 2, 4].as_slice());
    Ok(())
}
