//! Why a query is turned away.
ghost use Rattle.std.specs.Prelude.{◌≡◌};
ghost use Rattle.eval.specs.declared.reply.Refusal.TheVariants.{Tables, Query};

use query::Faulty;
use tables::Misfit;

/// Why a query is turned away, with what tells the place.
#[derive(Clone, Copy, PartialEq, Eq, Debug)]
pub enum Refusal {
    /// The first table that does not fit.
    Tables(usize),
    /// The operator at which the query is faulty.
    Query(usize),
    /// The weight of the query is above 8,192.
    Weight,
    /// The work row is too short: its length.
    Work(usize),
    /// The nodes are too few: the length of their memory.
    Nodes(usize),
    /// The memory for the answer is too short: its length.
    Out(usize),
}

// By hand: a derived `From` does not say which error it makes, and clauses name it.
impl From<Misfit> for Refusal {
    ghost from_gives = { λ e r. r ≡ Tables e.table };

    fn from(misfit: Misfit) -> Refusal {
        Refusal::Tables(misfit.table)
    }
}

// By hand, as above.
impl From<Faulty> for Refusal {
    ghost from_gives = { λ e r. r ≡ Query e.operator };

    fn from(faulty: Faulty) -> Refusal {
        Refusal::Query(faulty.operator)
    }
}
