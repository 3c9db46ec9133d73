//! The columns that a test reads, and the same test of other columns.
ghost use Rattle.std.specs.Prelude.{◌≡◌};
ghost use Rattle.provenance.specs.Rewriting.{through};
ghost use Rattle.query.specs.Operators.{test_of};
ghost use Rattle.rewrite.specs.Rewritten.{behind, earlier};
ghost use Rattle.rewrite.specs.Written.{Mapped};

use query::{Test, cell};

/// The same test of other columns: those that `change` makes of its own.
fn with_columns<F: Fn(u64) -> u64>(test: Test, change: F) -> Test
    requires { F.IsAlwaysCallable change }
    ensures { Mapped (F.post change) test result }
{
    match test {
        Test::Same(a, b) => Test::Same(change(a), change(b)),
        Test::Is(a, n) => Test::Is(change(a), n),
        Test::Below(a, n) => Test::Below(change(a), n),
    }
}

/// Whether a test reads only columns behind the first `width`.
pub fn reads_behind(test: Test, width: u64) -> bool
    ensures { result ≡ behind width (test_of test) }
{
    test.columns().iter().all(|column| width <= *column)
}

/// The same test, `width` columns before.
pub fn moved_left(test: Test, width: u64) -> Test
    ensures { test_of result ≡ earlier width (test_of test) }
{
    with_columns(test, |column| column.saturating_sub(width))
}

/// What a test says of some columns of a row, as a test of the row.
pub fn test_through(test: Test, columns: &[u64]) -> Test
    ensures { test_of result ≡ through columns.now (test_of test) }
{
    with_columns(test, |column| cell(columns, column))
}
