//! The rows that are gathered.
ghost use Rattle.std.specs.Prelude.{◌+◌, ◌*◌, ◌≤◌, length};

use rows::Region;

/// At most 8,192 rows of a region, in the work row in which they stand.
#[derive(Clone, Copy)]
pub struct Batch<'a> {
    pub work: &'a [u64],
    pub rows: Region,
    ghost few: { rows.count ≤ 8192 },
    ghost within: { (rows.width ≤ 8) × (9 * (rows.first + rows.count) ≤ length work.now) },
}
