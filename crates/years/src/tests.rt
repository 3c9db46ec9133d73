//! Years read over a small store.
use crate::Years;
use semiring::read;
use std::test::Fail;

/// Marks 0 to 2; 3 is the first or the second, and 4 the third with either.
const NODES: [u64; 16] = [5, 2, 0, 0, 2, 1, 0, 2, 2, 0, 3, 0, 1, 4, 3, 2];

#[test]
fn years(rt: HostRuntime) -> Result<(), Fail> {
    let rows = read(
        rt.alloc(),
        &Years,
        &NODES,
        &[3, 4],
        &[0b0011, 0b1100, 0b0110],
    )?;
    assert_eq!(rt; rows.as_slice(), [0b1111, 0b0110].as_slice());
    Ok(())
}
