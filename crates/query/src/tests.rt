//! What queries are read as, where they are refused, and what is made of one row.
use crate::cells::keep_cells;
use crate::operator::Test;
use crate::syntax::parse;

/// Three tables: one row of four columns, two rows of two, none of one.
const TABLES: [u64; 15] = [3, 1, 4, 1, 2, 3, 4, 2, 2, 5, 6, 7, 8, 0, 1];

const FOUR: [u64; 6] = [0, 0, 0, 0, 0, 0];

const TWO: [u64; 6] = [0, 1, 0, 0, 0, 0];

const ONE: [u64; 6] = [0, 2, 0, 0, 0, 0];

const PRODUCT: [u64; 6] = [5, 0, 0, 0, 0, 0];

const UNION: [u64; 6] = [6, 0, 0, 0, 0, 0];

const MAX: u64 = u64::MAX;

/// What is told of a query: how wide its rows are, or the operator at which it is faulty.
fn read(signs: &[u64]) -> Result<usize, usize> {
    parse(&TABLES, signs).map_err(|faulty| faulty.operator)
}

/// What is told of some operators.
fn told(operators: &[[u64; 6]]) -> Result<usize, usize> {
    read(operators.as_flattened())
}

#[test]
fn widths(rt: HostRuntime) {
    assert_eq!(rt; told(&[[0, 1, MAX, 9, 9, 9]]), Ok(2));
    assert_eq!(rt; told(&[[1, 0, 3, 0, 0, 0], FOUR]), Ok(4));
    assert_eq!(rt; told(&[[3, 3, MAX, 0, 0, 0], FOUR]), Ok(4));
    assert_eq!(rt; told(&[[4, 3, 1, 1, 0, MAX], TWO]), Ok(3));
    assert_eq!(rt; told(&[PRODUCT, FOUR, FOUR]), Ok(8));
    assert_eq!(rt; told(&[UNION, TWO, UNION, TWO, TWO]), Ok(2));
}

#[test]
fn too_few_or_too_many(rt: HostRuntime) {
    assert_eq!(rt; read(&[]), Err(0));
    assert_eq!(rt; read(&[0, 0, 0, 0, 0]), Err(0));
    assert_eq!(rt; read(&[5, 0, 0, 0, 0, 0, 0]), Err(1));
    assert_eq!(rt; told(&[FOUR; 17]), Err(16));
    assert_eq!(rt; told(&[FOUR, FOUR]), Err(1));
    assert_eq!(rt; told(&[[1, 0, 0, 0, 0, 0]]), Err(1));
    assert_eq!(rt; told(&[PRODUCT, FOUR]), Err(2));
}

#[test]
fn faulty_operators(rt: HostRuntime) {
    assert_eq!(rt; told(&[[7, 0, 0, 0, 0, 0]]), Err(0));
    assert_eq!(rt; told(&[[MAX, 0, 0, 0, 0, 0]]), Err(0));
    assert_eq!(rt; told(&[[0, 3, 0, 0, 0, 0]]), Err(0));
    assert_eq!(rt; told(&[[0, 8, 0, 0, 0, 0]]), Err(0));
    assert_eq!(rt; told(&[[0, MAX, 0, 0, 0, 0]]), Err(0));
    assert_eq!(rt; told(&[[1, 0, 4, 0, 0, 0], FOUR]), Err(0));
    assert_eq!(rt; told(&[[2, 4, 0, 0, 0, 0], FOUR]), Err(0));
    assert_eq!(rt; told(&[[3, MAX, 0, 0, 0, 0], FOUR]), Err(0));
}

#[test]
fn faulty_widths(rt: HostRuntime) {
    assert_eq!(rt; told(&[[4, 0, 0, 0, 0, 0], FOUR]), Err(0));
    assert_eq!(rt; told(&[[4, 5, 0, 0, 0, 0], FOUR]), Err(0));
    assert_eq!(rt; told(&[[4, 2, 0, 4, 0, 0], FOUR]), Err(0));
    assert_eq!(rt; told(&[PRODUCT, FOUR, PRODUCT, FOUR, ONE]), Err(0));
    assert_eq!(rt; told(&[UNION, FOUR, TWO]), Err(0));
    // a fault inside a fault: the inner one is told
    assert_eq!(rt; told(&[[2, 9, 0, 0, 0, 0], UNION, FOUR, TWO]), Err(1));
    assert_eq!(rt;
        told(&[UNION, FOUR, [1, 0, 9, 0, 0, 0], [7, 0, 0, 0, 0, 0]]),
        Err(3)
    );
}

#[test]
fn rows(rt: HostRuntime) {
    let row = [5, 6, 5];
    assert_eq!(rt; Test::Same(0, 2).passes(&row), true);
    assert_eq!(rt; Test::Same(0, 1).passes(&row), false);
    assert_eq!(rt; Test::Is(1, 6).passes(&row), true);
    assert_eq!(rt; Test::Below(1, 6).passes(&row), false);
    assert_eq!(rt; Test::Is(3, 0).passes(&row), true);
    let mut into = [9; 4];
    keep_cells(&[1, MAX, 1], &row, &mut into);
    assert_eq!(rt; into, [6, 0, 6, 9]);
}
