//! The notes of rows: numbers, each of which stands for an expression over marks.
ghost use Rattle.circuit.specs.Expr.{mark};
ghost use Rattle.rows.specs.Notes.{Notes, Can, GoesOn, Meant, NotedBoth, anything};

/// Makes the notes of rows, in lent memory.
pub trait Annotate {
    ghost state: { Self → Notes };

    /// The note of a row of a table, by its mark.
    fn mark(&mut self, number: u64) -> u64
        requires { Can 1 (state self.old) }
        ensures told { (state self.new).means result (mark number) }
        ensures goes { GoesOn 1 (state self.old) (state self.new) };

    /// The note of a row that is made of two, whose notes are `a` and `b`.
    fn both(&mut self, a: u64, b: u64) -> u64
        requires can { Can 1 (state self.old) }
        requires meant { (Meant (state self.old) a) × (Meant (state self.old) b) }
        ensures told { NotedBoth (state self.old) (state self.new) a b result }
        ensures goes { GoesOn 1 (state self.old) (state self.new) };
}

/// No notes, for a query that is only weighed: every note is 0, and stands for anything.
#[derive(Clone, Copy)]
pub struct Unannotated;

impl Annotate for Unannotated {
    ghost state = { λ _. anything };

    fn mark(&mut self, number: u64) -> u64 {
        0
    }

    fn both(&mut self, a: u64, b: u64) -> u64 {
        0
    }
}
