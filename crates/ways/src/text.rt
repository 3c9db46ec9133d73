//! A row and its ways as text.
// Pushed to the line's String, and no Display of a way, which would be no plainer: how numbers are parted is shared with the rows.
ghost use Rattle.std.specs.Prelude.{◌≡◌, ◌++◌, IfOk, string_bytes, OnOk};
ghost use Rattle.polynomial.specs.Ways.{monomials};
ghost use Rattle.ways.specs.Text.{count_text, marks_text, ways_text, line_text};

use codec::push_parted;
use polynomial::Way;
use std::alloc::{AllocError, Global};

/// Writes the count of a way and an x, unless it occurs once.
fn write_count(text: &mut String, count: u64) -> Result<(), AllocError>
    ensures { OnOk result (string_bytes text.new ≡ string_bytes text.old ++ count_text count) }
{
    if count == 1 {
        return Ok(());
    }
    write!(text, "{count}x")
}

/// Writes the marks of a way with a plus between them, or a dash if there is none.
fn write_marks(text: &mut String, marks: &[u64]) -> Result<(), AllocError>
    ensures { OnOk result (string_bytes text.new ≡ string_bytes text.old ++ marks_text marks.now) }
{
    if marks.is_empty() {
        return write!(text, "-");
    }
    push_parted(text, "+", marks)
}

/// Writes each way with a blank before it.
fn write_ways(text: &mut String, ways: &[Way]) -> Result<(), AllocError>
    ensures { OnOk result (string_bytes text.new ≡
        string_bytes text.old ++ ways_text (monomials ways.now)) }
{
    for way in ways {
        write!(text, " ")?;
        write_count(text, way.count)?;
        write_marks(text, &way.marks)?;
    }
    Ok(())
}

/// Writes a row and its ways: the cells with blanks between them, a colon, and each way with a blank before it.
fn write_line(text: &mut String, row: &[u64], ways: &[Way]) -> Result<(), AllocError>
    ensures { OnOk result (string_bytes text.new ≡
        string_bytes text.old ++ line_text row.now (monomials ways.now)) }
{
    push_parted(text, " ", row)?;
    write!(text, ":")?;
    write_ways(text, ways)
}

/// A row and its ways as text, as in `8 8: 2+2 2x2+3 3+3`: the cells with blanks between them, a colon, and each way with a
/// blank before it; its marks have a plus between them, and a way that occurs more than once has its count and an x before it.
/// A way that uses no mark is a dash.
pub fn line(heap: Global, row: &[u64], ways: &[Way]) -> Result<String, AllocError>
    ensures { IfOk result (λ s. string_bytes s ≡ line_text row.now (monomials ways.now)) }
{
    let mut text = String::new(heap);
    write_line(&mut text, row, ways)?;
    Ok(text)
}
