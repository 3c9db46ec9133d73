//! Steps on projections.
ghost use Rattle.rewrite.specs.Written.{Makes};
ghost use Rattle.rewrite.specs.declared.Step.TheVariants.{TestBelowProjection, JoinProjections};

use crate::columns::test_through;
use crate::signs::{project_at, select_at};
use crate::site::Site;
use crate::write::put;
use query::{Change, Operator, SIGNS, keep_cells};

impl Site<'_> {
    /// A test of the columns that a projection keeps is made before it.
    pub fn test_below_projection(self, into: &mut [u64]) -> Option<usize>
        ensures { Makes TestBelowProjection self.entry into.old into.new result }
    {
        let selected = select_at(self.at)?;
        let projected = project_at(selected.rest)?;
        let columns = projected.kept_columns()?;
        let test = test_through(selected.test, columns);
        let moved = <[u64; SIGNS]>::from(Operator::One(Change::Select(test)));
        put(&[self.before, projected.sign, &moved, projected.rest], into)
    }

    /// Two projections become one.
    pub fn join_projections(self, into: &mut [u64]) -> Option<usize>
        ensures { Makes JoinProjections self.entry into.old into.new result }
    {
        let outer = project_at(self.at)?;
        let inner = project_at(outer.rest)?;
        let mut columns = [0; 4];
        keep_cells(outer.kept_columns()?, inner.kept_columns()?, &mut columns);
        let joined = <[u64; SIGNS]>::from(Operator::One(Change::Project(outer.kept, columns)));
        put(&[self.before, &joined, inner.rest], into)
    }
}
