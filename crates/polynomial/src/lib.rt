//! Polynomials over marks in normal form: sums and products, within a room.
#![tactic(auto)]

ghost use Rattle.std.specs.Prelude.{◌≡◌, true};
ghost use Rattle.polynomial.specs.Rise.{proper};
ghost use Rattle.polynomial.specs.Ways.{monomials};

mod copies;
mod error;
mod marks;
mod products;
mod room;
mod sums;

pub use error::PolynomialError;
pub use room::Room;

/// One way in which a row comes about: the marks that it uses, rising, a mark as often as it is used, and how often that way occurs.
#[derive(Drop)]
pub struct Way {
    pub count: u64,
    pub marks: Vec<u64>,
}

/// A polynomial in normal form: the ways in which a row comes about, each once and in the order of their marks.
#[derive(Drop)]
pub struct Polynomial {
    pub ways: Vec<Way>,
    ghost ok: { proper (monomials ways.items) ≡ true },
}
