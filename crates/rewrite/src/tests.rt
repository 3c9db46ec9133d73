//! What each step makes of a small query, and where it makes nothing.
use crate::Step;
use crate::applying::apply;

/// Two tables without rows: three columns, and two.
const TABLES: [u64; 5] = [2, 0, 3, 0, 2];

const THREE: [u64; 6] = [0, 0, 0, 0, 0, 0];

const TWO: [u64; 6] = [0, 1, 0, 0, 0, 0];

const PRODUCT: [u64; 6] = [5, 0, 0, 0, 0, 0];

const UNION: [u64; 6] = [6, 0, 0, 0, 0, 0];

/// Column 1 is 7.
const IS: [u64; 6] = [2, 1, 7, 0, 0, 0];

/// Column 4 is below 9.
const BELOW: [u64; 6] = [3, 4, 9, 0, 0, 0];

/// Columns 2 and 1, and columns 1 and 0.
const KEPT: [u64; 6] = [4, 2, 2, 1, 0, 0];

const TURNED: [u64; 6] = [4, 2, 1, 0, 0, 0];

/// The operators of a query, one behind another.
fn flat(operators: &[[u64; 6]]) -> [u64; 96] {
    let mut signs = [0; 96];
    for (place, operator) in signs.chunks_exact_mut(6).zip(operators) {
        place.copy_from_slice(operator);
    }
    signs
}

/// What a step makes of a query of at most 16 operators, in memory that was all 0.
fn made(old: &[[u64; 6]], step: Step, place: usize) -> (Option<usize>, [u64; 96]) {
    let mut into = [0; 96];
    if old.len() > 16 {
        return (None, into);
    }
    let told = apply(&TABLES, &flat(old)[..6 * old.len()], step, place, &mut into);
    (told, into)
}

#[test]
fn tests_moved(rt: HostRuntime) {
    assert_eq!(rt;
        made(&[IS, [3, 0, 5, 0, 0, 0], TWO], Step::SwapTests, 0),
        (Some(18), flat(&[[3, 0, 5, 0, 0, 0], IS, TWO]))
    );
    assert_eq!(rt;
        made(&[IS, PRODUCT, THREE, TWO], Step::TestIntoLeft, 0),
        (Some(24), flat(&[PRODUCT, IS, THREE, TWO]))
    );
    assert_eq!(rt;
        made(&[BELOW, PRODUCT, THREE, TWO], Step::TestIntoRight, 0),
        (Some(24), flat(&[PRODUCT, THREE, [3, 1, 9, 0, 0, 0], TWO]))
    );
    assert_eq!(rt;
        made(&[IS, UNION, TWO, TWO], Step::TestIntoUnion, 0),
        (Some(30), flat(&[UNION, IS, TWO, IS, TWO]))
    );
    assert_eq!(rt;
        made(&[IS, KEPT, THREE], Step::TestBelowProjection, 0),
        (Some(18), flat(&[KEPT, [2, 1, 7, 0, 0, 0], THREE]))
    );
    assert_eq!(rt;
        made(
            &[[2, 0, 7, 0, 0, 0], KEPT, THREE],
            Step::TestBelowProjection,
            0,
        ),
        (Some(18), flat(&[KEPT, [2, 2, 7, 0, 0, 0], THREE]))
    );
}

#[test]
fn products_and_unions(rt: HostRuntime) {
    assert_eq!(rt;
        made(&[UNION, [2, 0, 7, 0, 0, 0], TWO, TWO], Step::SwapUnion, 0),
        (Some(24), flat(&[UNION, TWO, [2, 0, 7, 0, 0, 0], TWO]))
    );
    assert_eq!(rt;
        made(
            &[PRODUCT, UNION, TWO, IS, TWO, THREE],
            Step::UnionOutOfLeft,
            0,
        ),
        (
            Some(48),
            flat(&[UNION, PRODUCT, TWO, THREE, PRODUCT, IS, TWO, THREE]),
        )
    );
    assert_eq!(rt;
        made(
            &[PRODUCT, THREE, UNION, TWO, IS, TWO],
            Step::UnionOutOfRight,
            0,
        ),
        (
            Some(48),
            flat(&[UNION, PRODUCT, THREE, TWO, PRODUCT, THREE, IS, TWO]),
        )
    );
    assert_eq!(rt;
        made(&[PRODUCT, THREE, PRODUCT, TWO, THREE], Step::RegroupLeft, 0),
        (Some(30), flat(&[PRODUCT, PRODUCT, THREE, TWO, THREE]))
    );
    assert_eq!(rt;
        made(
            &[PRODUCT, PRODUCT, THREE, TWO, THREE],
            Step::RegroupRight,
            0,
        ),
        (Some(30), flat(&[PRODUCT, THREE, PRODUCT, TWO, THREE]))
    );
    assert_eq!(rt;
        made(&[TURNED, KEPT, THREE], Step::JoinProjections, 0),
        (Some(12), flat(&[[4, 2, 1, 2, 0, 0], THREE]))
    );
}

#[test]
fn inside(rt: HostRuntime) {
    assert_eq!(rt;
        made(
            &[PRODUCT, THREE, IS, UNION, TWO, TWO],
            Step::TestIntoUnion,
            2,
        ),
        (Some(42), flat(&[PRODUCT, THREE, UNION, IS, TWO, IS, TWO]))
    );
    assert_eq!(rt;
        made(&[UNION, UNION, TWO, IS, TWO, TWO], Step::SwapUnion, 1),
        (Some(36), flat(&[UNION, UNION, IS, TWO, TWO, TWO]))
    );
}

#[test]
fn nothing_made(rt: HostRuntime) {
    let nothing = (None, [0; 96]);
    assert_eq!(rt; made(&[IS, TWO], Step::SwapTests, 0), nothing);
    assert_eq!(rt;
        made(&[BELOW, PRODUCT, THREE, TWO], Step::TestIntoLeft, 0),
        nothing
    );
    assert_eq!(rt;
        made(&[IS, PRODUCT, THREE, TWO], Step::TestIntoRight, 0),
        nothing
    );
    assert_eq!(rt; made(&[UNION, TWO, TWO], Step::SwapUnion, 1), nothing);
    assert_eq!(rt; made(&[UNION, TWO, TWO], Step::SwapUnion, 3), nothing);
    assert_eq!(rt; made(&[UNION, TWO], Step::SwapUnion, 0), nothing);
    assert_eq!(rt;
        made(
            &[
                IS, UNION, IS, IS, IS, IS, IS, IS, IS, IS, IS, IS, IS, IS, TWO, TWO,
            ],
            Step::TestIntoUnion,
            0,
        ),
        nothing
    );
}
