//! Memory whose tables fit.
ghost use Rattle.std.specs.Prelude.{◌≡◌};
ghost use Rattle.tables.specs.Tables.{fit, fits};

/// Memory that holds 1 to 8 tables that fit: their number, and for each its rows, its columns and its cells row by row.
#[derive(Clone, Copy)]
pub struct Tables<'a> {
    pub memory: &'a [u64],
    pub ghost whole: { fit memory.now ≡ fits },
}

/// The first table that does not fit: 0 also where there is none, and 8 for a ninth.
#[derive(Clone, Copy, PartialEq, Eq, Debug)]
pub struct Misfit {
    pub table: usize,
}
