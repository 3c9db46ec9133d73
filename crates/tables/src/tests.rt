//! Memory at its edges, and the order of rows.
use crate::{equal, find, fit, order};
use std::cmp::Ordering;
use std::test::Fail;

/// Two tables, ships with their licences and licences with their holders.
const SHIPS: [u64; 19] = [2, 4, 2, 7, 1, 7, 2, 8, 2, 8, 2, 3, 2, 1, 40, 2, 40, 2, 50];

/// The first table that does not fit, if one does not.
fn told(memory: &[u64]) -> Result<(), usize> {
    match fit(memory) {
        Ok(_) => Ok(()),
        Err(misfit) => Err(misfit.table),
    }
}

#[test]
fn the_number_of_tables_is_judged_first(rt: HostRuntime) {
    assert_eq!(rt; told(&[]), Err(0), "no memory");
    assert_eq!(rt; told(&[0]), Err(0), "no table");
    assert_eq!(rt; told(&[9, 0, 1]), Err(8), "a ninth table");
    assert_eq!(rt;
        told(&[u64::MAX, 0, 1]),
        Err(8),
        "as many tables as can be written"
    );
}

#[test]
fn the_first_faulty_table_is_told(rt: HostRuntime) {
    assert_eq!(rt; told(&[1]), Err(0), "the header is missing");
    assert_eq!(rt; told(&[2, 0, 1, 1]), Err(1), "the second header is cut off");
    assert_eq!(rt; told(&[1, 1, 0]), Err(0), "no column");
    assert_eq!(rt; told(&[1, 0, 5]), Err(0), "five columns");
    assert_eq!(rt; told(&[1, 257, 1]), Err(0), "257 rows");
    assert_eq!(rt;
        told(&[1, u64::MAX, 4, 1]),
        Err(0),
        "rows times columns pass 64 bits"
    );
    assert_eq!(rt;
        told(&[1, 4, u64::MAX, 1]),
        Err(0),
        "columns times rows pass 64 bits"
    );
    assert_eq!(rt;
        told(&[2, 0, 1, 2, 2, 1, 2, 3]),
        Err(1),
        "the last cell is missing"
    );
    assert_eq!(rt;
        told(&[2, 0, 1, 2, 2, 1, 2, 3, 4]),
        Ok(()),
        "all cells are there"
    );
    assert_eq!(rt;
        told(&[1, 1, 1, u64::MAX, 99]),
        Ok(()),
        "what follows the last table is not looked at"
    );
    assert_eq!(rt; told(&SHIPS), Ok(()));
}

#[test]
fn a_table_has_its_rows_and_cells(rt: HostRuntime) -> Result<(), Fail> {
    let table = find(&SHIPS, 1).ok_or("table 1 is there")?;
    assert_eq!(rt; table.rows, 3);
    assert_eq!(rt; table.columns, 2);
    assert!(rt; equal(table.row(2).ok_or("row 2 is there")?, &[2, 50]));
    assert!(rt; table.row(3).is_none());
    assert_eq!(rt; table.cell(0, 1), Some(40));
    assert_eq!(rt; table.cell(0, 2), None);
    assert_eq!(rt; table.cell(3, 0), None);
    assert!(rt; find(&SHIPS, 2).is_none());
    assert!(rt; find(&[1, 0], 0).is_none(), "its header is cut off");
    Ok(())
}

#[test]
fn rows_are_ordered_cell_by_cell(rt: HostRuntime) {
    assert_eq!(rt; order(&[7, 40], &[7, 40]), Ordering::Equal);
    assert_eq!(rt; order(&[7, 40], &[7, 50]), Ordering::Less);
    assert_eq!(rt; order(&[8, 0], &[7, u64::MAX]), Ordering::Greater);
    assert_eq!(rt;
        order(&[7], &[7, 0]),
        Ordering::Less,
        "a row stands before one that it begins"
    );
    assert_eq!(rt; order(&[], &[]), Ordering::Equal);
    assert!(rt; equal(&[7, 40], &[7, 40]));
    assert!(rt; !equal(&[7], &[7, 40]));
    assert!(rt; !equal(&[7, 40], &[7, 41]));
}
