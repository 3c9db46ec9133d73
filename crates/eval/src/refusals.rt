//! The number and the place of a refusal.
ghost use Rattle.std.specs.Prelude.{◌≡◌};
ghost use Rattle.eval.specs.Refusals.{number_of, place_of};

use crate::reply::Refusal;

const TOO_HEAVY: usize = 8193;

impl Refusal {
    /// The number of the refusal, 1 to 6.
    pub fn number(self) -> u64
        ensures { result ≡ number_of self }
    {
        match self {
            Refusal::Tables(_) => 1,
            Refusal::Query(_) => 2,
            Refusal::Weight => 3,
            Refusal::Work(_) => 4,
            Refusal::Nodes(_) => 5,
            Refusal::Out(_) => 6,
        }
    }

    /// The place of the refusal: a table, an operator, the first weight that is too much, or a length.
    pub fn place(self) -> usize
        ensures { result ≡ place_of self }
    {
        match self {
            Refusal::Tables(place) | Refusal::Query(place) => place,
            Refusal::Weight => TOO_HEAVY,
            Refusal::Work(length) | Refusal::Nodes(length) | Refusal::Out(length) => length,
        }
    }
}
