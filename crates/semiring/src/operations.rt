//! Semirings as code: something to add and something to multiply.
ghost use Rattle.query.specs.Semiring.{Lawful};
ghost use Rattle.semiring.specs.Algebra.{Algebra, semiring, Gives, Tries};

/// A commutative semiring: its operations, and the laws that they owe.
pub trait Semiring {
    /// What a row may be worth.
    type Value: Copy;

    /// Zero, one, plus and times; the values on which the laws hold, those that the machine can hold, and what the value given for a
    /// mark is read as.
    ghost algebra: { Self → Algebra Self.Value };

    /// What is worth nothing.
    fn zero(&self) -> Self::Value
        ensures { Gives (algebra self.now) (algebra self.now).zero result };

    /// What is always there.
    fn one(&self) -> Self::Value
        ensures { Gives (algebra self.now) (algebra self.now).one result };

    /// What the value given for a mark is read as.
    fn take(&self, value: Self::Value) -> Self::Value
        ensures { Gives (algebra self.now) ((algebra self.now).taken value) result };

    /// One or the other; none where the machine cannot hold the sum.
    fn plus(&self, a: Self::Value, b: Self::Value) -> Option<Self::Value>
        ensures { Tries (algebra self.now) ((algebra self.now).plus a b) result };

    /// Both together; none where the machine cannot hold the product.
    fn times(&self, a: Self::Value, b: Self::Value) -> Option<Self::Value>
        ensures { Tries (algebra self.now) ((algebra self.now).times a b) result };

    /// The laws of a commutative semiring.
    ghost lawful: { (s : Self) → Lawful (semiring (algebra s)) (algebra s).lawful };

    /// What a value given for a mark is read as is lawful.
    ghost admitted: { (s : Self) (x : Self.Value) → (algebra s).lawful ((algebra s).taken x) };
}
