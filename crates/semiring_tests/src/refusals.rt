//! Each refusal at its edge, and in its order.
use codec::Refused;
use semiring::{ReadError, read_counts, read_levels, read_prices, read_sets};
use std::test::Fail;

const MAX: u64 = u64::MAX;

/// Marks 0 to 2; 3 is the first or the second, 4 the first with the second, and 5 both of these.
const NODES: [u64; 19] = [6, 2, 0, 0, 2, 1, 0, 2, 2, 0, 3, 0, 1, 4, 0, 1, 4, 3, 4];

#[test]
fn a_bad_node_comes_first(rt: HostRuntime) -> Result<(), Fail> {
    let heap = rt.alloc();
    assert_eq!(rt;
        read_counts(heap, &[], &[7], &[]).err(),
        Some(ReadError::BadNode(0)),
        "empty memory"
    );
    assert_eq!(rt;
        read_counts(heap, &[2, 1, 0, 0, 9, 0, 0], &[7], &[]).err(),
        Some(ReadError::BadNode(1)),
        "a bad node that is not needed"
    );
    assert_eq!(rt;
        read_counts(heap, &[1, 2, 5, 0], &[0, 1, 7], &[]).err(),
        Some(ReadError::BadNode(1)),
        "a node that is not there"
    );
    assert_eq!(rt;
        read_sets(heap, &[0], &[0], &[]).err(),
        Some(ReadError::BadNode(0)),
        "no nodes"
    );
    let none = read_levels(heap, 3, &[1, 2, 5, 0], &[], &[])?;
    assert_eq!(rt; none.len(), 0, "nothing is asked");
    Ok(())
}

#[test]
fn a_mark_without_a_value(rt: HostRuntime) -> Result<(), Fail> {
    let heap = rt.alloc();
    assert_eq!(rt;
        read_counts(heap, &NODES, &[2], &[1, 1]).err(),
        Some(ReadError::NoValue(2)),
        "just past the values"
    );
    let last = read_counts(heap, &NODES, &[2, 0, 2], &[5, 6, 7])?;
    assert_eq!(rt;
        last.as_slice(),
        [7, 5, 7].as_slice(),
        "the last value, and a node twice"
    );
    let fewer = read_counts(heap, &NODES, &[5], &[2, 3])?;
    assert_eq!(rt; fewer.as_slice(), [30].as_slice(), "mark 2 is not needed");
    assert_eq!(rt;
        read_counts(heap, &[2, 2, 9, 0, 2, 5, 0], &[1, 0], &[]).err(),
        Some(ReadError::NoValue(9)),
        "the first by place"
    );
    assert_eq!(rt;
        read_counts(heap, &NODES, &[3, 2], &[MAX, 1]).err(),
        Some(ReadError::NoValue(2)),
        "told before a value that is too large"
    );
    Ok(())
}

#[test]
fn a_value_that_is_too_large(rt: HostRuntime) -> Result<(), Fail> {
    let heap = rt.alloc();
    let most = read_counts(heap, &NODES, &[3], &[MAX, 0])?;
    assert_eq!(rt; most.as_slice(), [MAX].as_slice(), "the largest count");
    assert_eq!(rt;
        read_counts(heap, &NODES, &[3], &[MAX, 1]).err(),
        Some(ReadError::Overflow(3)),
        "one more"
    );
    assert_eq!(rt;
        read_counts(heap, &NODES, &[4, 5], &[1 << 32, 1 << 32]).err(),
        Some(ReadError::Overflow(4)),
        "the first by place"
    );
    let other = read_counts(heap, &NODES, &[3], &[1 << 32, 1 << 32])?;
    assert_eq!(rt;
        other.as_slice(),
        [1 << 33].as_slice(),
        "node 4 is not needed"
    );
    let powers = [4, 2, 0, 0, 4, 0, 0, 4, 1, 0, 4, 2, 0];
    let third = read_counts(heap, &powers, &[2], &[1_000_000])?;
    assert_eq!(rt;
        third.as_slice(),
        [1_000_000_000_000_000_000].as_slice(),
        "a million, its third power"
    );
    assert_eq!(rt;
        read_counts(heap, &powers, &[3], &[1_000_000]).err(),
        Some(ReadError::Overflow(3)),
        "and its fourth"
    );
    Ok(())
}

#[test]
fn a_price_that_is_too_large(rt: HostRuntime) -> Result<(), Fail> {
    let heap = rt.alloc();
    let dear = [Some(MAX), Some(1)];
    assert_eq!(rt;
        read_prices(heap, &NODES, &[4], &dear).err(),
        Some(ReadError::Overflow(4)),
        "one more"
    );
    let least = read_prices(heap, &NODES, &[3], &dear)?;
    assert_eq!(rt; least.as_slice(), [Some(1)].as_slice(), "the cheaper one");
    let free = read_prices(heap, &NODES, &[4], &[Some(MAX), Some(0)])?;
    assert_eq!(rt;
        free.as_slice(),
        [Some(MAX)].as_slice(),
        "the largest price"
    );
    let gone = read_prices(heap, &NODES, &[3, 4], &[Some(MAX), None])?;
    assert_eq!(rt; gone.as_slice(), [Some(MAX), None].as_slice());
    Ok(())
}

#[test]
fn numbers_and_places(rt: HostRuntime) {
    assert_eq!(rt; ReadError::NoMemory.refusal(), None);
    assert_eq!(rt;
        ReadError::BadNode(3).refusal(),
        Some(Refused {
            number: 7,
            place: 3,
        })
    );
    assert_eq!(rt;
        ReadError::NoValue(4).refusal(),
        Some(Refused {
            number: 8,
            place: 4,
        })
    );
    assert_eq!(rt;
        ReadError::Overflow(5).refusal(),
        Some(Refused {
            number: 9,
            place: 5,
        })
    );
}
