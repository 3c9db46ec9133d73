//! Tables as bytes: their number; for each its rows, its columns, and eight bytes a cell, low byte first.
ghost use Rattle.std.specs.Prelude.{◌≡◌, ◌++◌, OnOk};
ghost use Rattle.codec.specs.Input.{read_tables};
ghost use Rattle.codec.specs.Reads.{TableFound, front_numbers, TablesRead};

use crate::input::{Decoded, InputError};
use crate::words::{WORD, push_words};
use std::alloc::{AllocError, Global};

// The limits of the byte form, a byte each: a layout of its own.
const MAX_TABLES: u8 = 8;

const MAX_ROWS: u8 = 32;

const MAX_COLUMNS: u8 = 4;

/// What bytes begin with, where that is a table: how many rows and columns it has, the bytes of its cells, and the bytes after it.
// Not the tables' `Table`: these cells are bytes that are not yet numbers, and at most 32 rows.
#[derive(Clone, Copy)]
struct FrontTable<'a> {
    rows: u8,
    columns: u8,
    cells: &'a [u8],
    rest: &'a [u8],
}

/// The table at the front of `bytes`, if it fits.
fn table_at_front(bytes: &[u8]) -> Option<FrontTable<'_>>
    ensures { TableFound bytes.now result }
{
    let [rows, columns, cells @ ..] = bytes else {
        return None;
    };
    if *rows > MAX_ROWS || *columns < 1 || *columns > MAX_COLUMNS {
        return None;
    }
    let count = *rows as usize * *columns as usize;
    let (cells, rest) = cells.split_at_checked(WORD * count)?;
    Some(FrontTable {
        rows: *rows,
        columns: *columns,
        cells,
        rest,
    })
}

/// Appends a table.
fn push_table(numbers: &mut Vec<u64>, table: FrontTable<'_>) -> Result<(), AllocError>
    ensures { OnOk result (numbers.new.items ≡ numbers.old.items ++ front_numbers table.entry) }
{
    numbers.push(u64::from(table.rows))?;
    numbers.push(u64::from(table.columns))?;
    push_words(numbers, table.cells)
}

/// The tables that `bytes` begin with, as memory holds them, or the first that does not fit: at most 32 rows, unlike in memory.
pub fn tables_in(heap: Global, bytes: &[u8]) -> Result<Decoded<'_>, InputError>
    ensures { TablesRead (read_tables bytes.now) result }
{
    let [count, rest @ ..] = bytes else {
        return Err(InputError::Table(0));
    };
    if *count < 1 {
        return Err(InputError::Table(0));
    }
    if *count > MAX_TABLES {
        return Err(InputError::Table(MAX_TABLES as usize));
    }
    let mut numbers = Vec::new(heap);
    numbers.push(u64::from(*count))?;
    let mut rest = rest;
    // A count of tables, and no list of them: each one's own bytes say where the next begins.
    for t in 0..*count as usize {
        let table = table_at_front(rest).ok_or(InputError::Table(t))?;
        push_table(&mut numbers, table)?;
        rest = table.rest;
    }
    Ok(Decoded { numbers, rest })
}
