//! The worked example, the empty answer, and each refusal at its edge.
use eval::{Refusal, ask};
use std::alloc::{AllocError, Global};
use std::test::Fail;

/// Ships with their licences, and licences with their holders.
const SHIPS: [u64; 19] = [2, 4, 2, 7, 1, 7, 2, 8, 2, 8, 2, 3, 2, 1, 40, 2, 40, 2, 50];

/// Each ship with each holder of its licence, of weight 33.
const HELD: [u64; 30] = [
    4, 2, 0, 3, 0, 0, 1, 1, 2, 0, 0, 0, 5, 0, 0, 0, 0, 0, 0, 0, 0, 0, 0, 0, 0, 1, 0, 0, 0, 0,
];

/// The rows of table 0 five times and of table 1 that are below 5,000, and of these the ones that are 1,000.
const HEAVY: [u64; 78] = [
    2, 0, 1000, 0, 0, 0, 3, 0, 5000, 0, 0, 0, 6, 0, 0, 0, 0, 0, 0, 0, 0, 0, 0, 0, 6, 0, 0, 0, 0, 0,
    0, 0, 0, 0, 0, 0, 6, 0, 0, 0, 0, 0, 0, 0, 0, 0, 0, 0, 6, 0, 0, 0, 0, 0, 0, 0, 0, 0, 0, 0, 6, 0,
    0, 0, 0, 0, 0, 0, 0, 0, 0, 0, 0, 1, 0, 0, 0, 0,
];

/// Whether each number of a memory is as it was lent.
fn untouched(memory: &[u64]) -> bool {
    for number in memory {
        if *number != 7 {
            return false;
        }
    }
    true
}

/// What is replied over the ships with lent rows of three lengths, and whether the nodes and the answer are as they were.
fn told(
    heap: Global,
    work: usize,
    nodes: usize,
    out: usize,
) -> Result<(Result<usize, Refusal>, bool), AllocError> {
    let mut work = vec![in heap; 7; work]?;
    let mut nodes = vec![in heap; 7; nodes]?;
    let mut out = vec![in heap; 7; out]?;
    let reply = ask(
        &SHIPS,
        &HELD,
        work.as_mut_slice(),
        nodes.as_mut_slice(),
        out.as_mut_slice(),
    );
    Ok((
        reply,
        untouched(nodes.as_slice()) && untouched(out.as_slice()),
    ))
}

/// Two tables of 256 rows and one column: the numbers from 0 on, and in the second one of them is 1,000.
fn many_rows(heap: Global) -> Result<Vec<u64>, AllocError> {
    let mut tables = Vec::new(heap);
    tables.push(2)?;
    for table in 0..2u64 {
        tables.push(256)?;
        tables.push(1)?;
        for row in 0..256u64 {
            tables.push(if table == 1 && row == 9 { 1000 } else { row })?;
        }
    }
    Ok(tables)
}

/// What is replied to the heavy query, with the last test for a number, and as much memory as the heaviest query needs.
fn weighed(heap: Global, number: u64) -> Result<Result<usize, Refusal>, AllocError> {
    let tables = many_rows(heap)?;
    let mut signs = HEAVY;
    signs[2] = number;
    let mut work = vec![in heap; 0; 73728]?;
    let mut nodes = vec![in heap; 0; 49159]?;
    let mut out = vec![in heap; 0; 73729]?;
    Ok(ask(
        tables.as_slice(),
        &signs,
        work.as_mut_slice(),
        nodes.as_mut_slice(),
        out.as_mut_slice(),
    ))
}

#[test]
fn ships_and_holders(rt: HostRuntime) {
    let mut work = [0; 297];
    let mut nodes = [9; 205];
    let mut out = [9; 298];
    assert_eq!(rt; ask(&SHIPS, &HELD, &mut work, &mut nodes, &mut out), Ok(4));
    assert_eq!(rt; [out[0], out[2], out[3], out[5], out[6]], [4, 7, 40, 7, 50]);
    assert_eq!(rt;
        [out[8], out[9], out[11], out[12], out[13]],
        [8, 40, 8, 50, 9]
    );
    assert!(rt;
        nodes[0] <= 17,
        "a mark for each row, a node for each pair, and one for each row less"
    );
}

/// 24 rows of one column, which are 1 and 0 in turn: 12 rows of each come together.
const TURNS: [u64; 27] = [
    1, 24, 1, 1, 0, 1, 0, 1, 0, 1, 0, 1, 0, 1, 0, 1, 0, 1, 0, 1, 0, 1, 0, 1, 0, 1, 0,
];

#[test]
fn equal_rows_are_joined_in_their_order(rt: HostRuntime) {
    let (mut work, mut nodes, mut out) = ([0; 216], [9; 151], [9; 217]);
    let signs = [0; 6];
    assert_eq!(rt; ask(&TURNS, &signs, &mut work, &mut nodes, &mut out), Ok(2));
    assert_eq!(rt;
        [out[0], out[1], out[2], out[3], out[4], out[5]],
        [2, 34, 0, 45, 1, 9]
    );
    assert_eq!(rt;
        nodes[0],
        46,
        "a node for each mark, and one for each row less"
    );
    assert_eq!(rt; [nodes[73], nodes[74], nodes[75]], [3, 1, 3], "1 or 3");
    assert_eq!(rt; [nodes[76], nodes[77], nodes[78]], [3, 24, 5], "and so on");
    assert_eq!(rt; [nodes[106], nodes[107], nodes[108]], [3, 0, 2], "0 or 2");
    assert_eq!(rt;
        [nodes[136], nodes[137], nodes[138]],
        [3, 44, 22],
        "up to 22"
    );
}

#[test]
fn no_row_passes(rt: HostRuntime) {
    let (mut work, mut nodes, mut out) = ([0; 36], [9; 31], [9; 37]);
    let signs = [2, 0, 9, 0, 0, 0, 0, 0, 0, 0, 0, 0];
    assert_eq!(rt; ask(&SHIPS, &signs, &mut work, &mut nodes, &mut out), Ok(0));
    assert_eq!(rt; [out[0], out[1]], [0, 9]);
}

#[test]
fn short_rows_are_refused(rt: HostRuntime) -> Result<(), Fail> {
    let heap = rt.alloc();
    assert_eq!(rt; told(heap, 296, 0, 0)?, (Err(Refusal::Work(296)), true));
    assert_eq!(rt; told(heap, 297, 204, 0)?, (Err(Refusal::Nodes(204)), true));
    assert_eq!(rt; told(heap, 297, 205, 297)?, (Err(Refusal::Out(297)), true));
    assert_eq!(rt; told(heap, 297, 205, 298)?, (Ok(4), false));
    Ok(())
}

#[test]
fn the_weight_is_bounded(rt: HostRuntime) -> Result<(), Fail> {
    assert_eq!(rt; weighed(rt.alloc(), 1001)?, Ok(0), "weight 8,192");
    assert_eq!(rt;
        weighed(rt.alloc(), 1000)?,
        Err(Refusal::Weight),
        "weight 8,193"
    );
    assert_eq!(rt; Refusal::Weight.place(), 8193);
    Ok(())
}
