//! A join that is weighed and run, memory that is just enough and too little, and weights past the limit.
use crate::{run_weighed, weigh, weigh_in};
use circuit::Circuit;
use query::Question;
use rows::Region;
use std::test::Fail;
use tables::fit;

/// Three rows of two columns, and two of one.
const TABLES: [u64; 13] = [2, 3, 2, 1, 10, 2, 20, 3, 10, 2, 1, 10, 20];

/// The first column of the pairs of both tables whose second column and third are equal.
const JOIN: [u64; 30] = [
    4, 1, 0, 0, 0, 0, 1, 1, 2, 0, 0, 0, 5, 0, 0, 0, 0, 0, 0, 0, 0, 0, 0, 0, 0, 1, 0, 0, 0, 0,
];

/// The product of a table with itself.
const SQUARE: [u64; 18] = [5, 0, 0, 0, 0, 0, 0, 0, 0, 0, 0, 0, 0, 0, 0, 0, 0, 0];

/// What a query weighs in memory alone, and what it weighs at all, if it can be read.
fn weights(
    tables: &[u64],
    signs: &[u64],
    work: &mut [u64],
) -> Option<(Option<usize>, Option<usize>)> {
    let question = Question::read(fit(tables).ok()?, signs).ok()?;
    let within = weigh_in(question, work);
    Some((within, weigh(question, work)))
}

/// The rows of a query, with nodes for notes, if it can be read and there is room.
fn answered(
    tables: &[u64],
    signs: &[u64],
    nodes: &mut [u64],
    hints: &mut [u64],
    work: &mut [u64],
) -> Option<Region> {
    let question = Question::read(fit(tables).ok()?, signs).ok()?;
    let weight = weigh(question, work)?;
    if work.len() / 9 < weight || nodes.len() / 4 < weight {
        return None;
    }
    if hints.len() / 2 < weight {
        return None;
    }
    let mut circuit = Circuit { nodes, hints };
    if !circuit.start() {
        return None;
    }
    Some(run_weighed(question, &mut circuit, work, weight))
}

#[test]
fn a_join_is_weighed(rt: HostRuntime) {
    assert_eq!(rt;
        weights(&TABLES, &JOIN, &mut [0; 153]),
        Some((Some(17), Some(17))),
        "just enough"
    );
    assert_eq!(rt;
        weights(&TABLES, &JOIN, &mut [0; 152]),
        Some((None, Some(17))),
        "one short"
    );
    assert_eq!(rt;
        weights(&TABLES, &JOIN, &mut []),
        Some((None, Some(17))),
        "no memory"
    );
}

#[test]
fn a_weight_past_the_limit_is_none(rt: HostRuntime) {
    let mut table = [0; 259];
    table[0] = 1;
    table[1] = 90;
    table[2] = 1;
    assert_eq!(rt;
        weights(&table, &SQUARE, &mut []),
        Some((None, None)),
        "8,280 rows"
    );
    table[1] = 89;
    assert_eq!(rt;
        weights(&table, &SQUARE, &mut []),
        Some((None, Some(8099))),
        "8,099 rows"
    );
}

#[test]
fn a_join_is_run(rt: HostRuntime) -> Result<(), Fail> {
    let mut work = [0; 153];
    let mut nodes = [0; 68];
    let rows = answered(&TABLES, &JOIN, &mut nodes, &mut [0; 64], &mut work).ok_or("refused")?;
    assert_eq!(rt; (rows.first, rows.count, rows.width), (8, 3, 1));
    assert_eq!(rt; (work[72], work[73]), (5, 1));
    assert_eq!(rt; (work[81], work[82]), (6, 2));
    assert_eq!(rt; (work[90], work[91]), (7, 3));
    assert_eq!(rt; nodes[0], 8);
    assert_eq!(rt;
        (nodes[16], nodes[17], nodes[18]),
        (4, 0, 3),
        "mark 0 and mark 1024"
    );
    Ok(())
}
