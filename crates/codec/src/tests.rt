//! Bytes at their edges.
use crate::{InputError, Refused, push_parted, query_in, tables_in};
use std::alloc::Global;
use std::test::Fail;

/// Where reading tables gives up; `None` where it does not.
fn fault(heap: Global, bytes: &[u8]) -> Option<InputError> {
    tables_in(heap, bytes).err()
}

/// Where reading a query gives up; `None` where it does not.
fn cut(heap: Global, bytes: &[u8]) -> Option<InputError> {
    query_in(heap, bytes).err()
}

#[test]
fn the_first_faulty_table_is_told(rt: HostRuntime) {
    let heap = rt.alloc();
    assert_eq!(rt; fault(heap, &[]), Some(InputError::Table(0)), "no byte");
    assert_eq!(rt; fault(heap, &[0]), Some(InputError::Table(0)), "no table");
    assert_eq!(rt;
        fault(heap, &[9, 0, 1]),
        Some(InputError::Table(8)),
        "nine tables"
    );
    assert_eq!(rt;
        fault(heap, &[2, 0, 1, 0]),
        Some(InputError::Table(1)),
        "a header is cut off"
    );
    assert_eq!(rt;
        fault(heap, &[1, 33, 1]),
        Some(InputError::Table(0)),
        "33 rows"
    );
    assert_eq!(rt;
        fault(heap, &[1, 1, 0]),
        Some(InputError::Table(0)),
        "no column"
    );
    assert_eq!(rt;
        fault(heap, &[1, 1, 5]),
        Some(InputError::Table(0)),
        "five columns"
    );
    assert_eq!(rt;
        fault(heap, &[1, 1, 1, 1, 2, 3, 4, 5, 6, 7]),
        Some(InputError::Table(0)),
        "a byte short"
    );
}

#[test]
fn tables_are_read_low_byte_first(rt: HostRuntime) -> Result<(), Fail> {
    let bytes = [1, 1, 1, 1, 2, 0, 0, 0, 0, 0, 128, 77];
    let tables = tables_in(rt.alloc(), &bytes).ok().ok_or("the table fits")?;
    assert_eq!(rt;
        tables.numbers.as_slice(),
        [1, 1, 1, 9223372036854776321].as_slice()
    );
    assert_eq!(rt; tables.rest, [77].as_slice());
    Ok(())
}

#[test]
fn a_query_is_cut_off_at_an_operator(rt: HostRuntime) -> Result<(), Fail> {
    let heap = rt.alloc();
    assert_eq!(rt; cut(heap, &[]), Some(InputError::Operator(0)), "no query");
    assert_eq!(rt;
        cut(heap, &[2, 0, 0, 0, 0, 0, 0]),
        Some(InputError::Operator(1)),
        "an operator is missing"
    );
    assert_eq!(rt;
        cut(heap, &[1, 0, 0, 0, 0, 0]),
        Some(InputError::Operator(0)),
        "an operator is cut off"
    );
    assert_eq!(rt;
        cut(heap, &[17, 0, 0]),
        Some(InputError::Operator(16)),
        "too many, and cut off"
    );
    let query = query_in(heap, &[1, 0, 1, 255, 0, 0, 0, 3])
        .ok()
        .ok_or("the query is there")?;
    assert_eq!(rt; query.numbers.as_slice(), [0, 1, 255, 0, 0, 0].as_slice());
    assert_eq!(rt; query.rest, [3].as_slice());
    Ok(())
}

#[test]
fn a_refusal_has_its_number_and_its_place(rt: HostRuntime) -> Result<(), Fail> {
    let refused = Refused {
        number: 2,
        place: 16,
    };
    let line = refused.to_string(rt.alloc())?;
    assert_eq!(rt; line.as_str(), "refused 2 at 16");
    Ok(())
}

#[test]
fn an_input_error_tells_its_refusal(rt: HostRuntime) {
    let table = Refused {
        number: 1,
        place: 8,
    };
    let operator = Refused {
        number: 2,
        place: 3,
    };
    assert_eq!(rt; InputError::Table(8).refusal(), Some(table));
    assert_eq!(rt; InputError::Operator(3).refusal(), Some(operator));
    assert_eq!(rt; InputError::NoMemory.refusal(), None);
}

#[test]
fn numbers_stand_parted(rt: HostRuntime) -> Result<(), Fail> {
    let mut text = String::new(rt.alloc());
    push_parted(&mut text, "+", &[])?;
    push_parted(&mut text, "+", &[2, 40, 3])?;
    push_parted(&mut text, " ", &[7])?;
    assert_eq!(rt; text.as_str(), "2+40+37");
    Ok(())
}
