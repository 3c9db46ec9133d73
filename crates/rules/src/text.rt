//! The line of a row.
// Pushed to the line's String, and no Display of a row, which would be no plainer: how numbers are parted is shared with the ways.
ghost use Rattle.std.specs.Prelude.{◌≡◌, ◌++◌, IfOk, string_bytes, OnOk};
ghost use Rattle.rules.specs.Lines.{worth_text, line_text};

use codec::push_parted;
use std::alloc::{AllocError, Global};

/// Writes what a row is worth, with a colon and a blank before it.
fn write_worth(text: &mut String, worth: Option<u64>) -> Result<(), AllocError>
    ensures { OnOk result (string_bytes text.new ≡ string_bytes text.old ++ worth_text worth) }
{
    match worth {
        None => write!(text, ": none"),
        Some(number) => write!(text, ": {number}"),
    }
}

/// A row and what it is worth, as in `7 40: 2` or `8 50: none`: the cells with blanks between them, a colon, and the number or `none`.
pub fn line(heap: Global, cells: &[u64], worth: Option<u64>) -> Result<String, AllocError>
    ensures { IfOk result (λ s. string_bytes s ≡ line_text cells.now worth) }
{
    let mut text = String::new(heap);
    push_parted(&mut text, " ", cells)?;
    write_worth(&mut text, worth)?;
    Ok(text)
}
