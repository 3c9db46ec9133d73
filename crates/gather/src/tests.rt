//! Ships and the holders of their licences: the rows of a query in which one row comes about twice.
use crate::gather;
use circuit::Circuit;
use rows::Region;
use std::test::Fail;

#[test]
fn equal_rows_come_together(rt: HostRuntime) -> Result<(), Fail> {
    let mut work = [0; 45];
    (work[0], work[1], work[2]) = (4, 8, 50);
    (work[9], work[10], work[11]) = (2, 8, 40);
    (work[18], work[19], work[20]) = (1, 7, 50);
    (work[27], work[28], work[29]) = (3, 8, 40);
    (work[36], work[37], work[38]) = (0, 7, 40);
    let mut nodes = [0; 31];
    (nodes[0], nodes[1], nodes[2]) = (5, 2, 70);
    (nodes[4], nodes[5], nodes[7], nodes[8]) = (2, 71, 2, 72);
    (nodes[10], nodes[11], nodes[13], nodes[14]) = (2, 73, 2, 74);
    let mut out = [9; 16];
    let rows = Region {
        first: 0,
        count: 5,
        width: 2,
    };
    let mut circuit = Circuit {
        nodes: &mut nodes,
        hints: &mut [],
    };
    assert_eq!(rt; gather(&work, rows, &mut circuit, &mut out), 4);
    assert_eq!(rt; out, [4, 0, 7, 40, 1, 7, 50, 5, 8, 40, 4, 8, 50, 9, 9, 9]);
    assert_eq!(rt; nodes[0], 6, "one node more");
    assert_eq!(rt; [nodes[16], nodes[17], nodes[18]], [3, 2, 3], "2 or 3");
    Ok(())
}
