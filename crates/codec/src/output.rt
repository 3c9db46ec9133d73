//! What the programs print.
ghost use Rattle.std.specs.Prelude.{Some, ◌≡◌, ◌++◌, string_bytes, OnOk};
ghost use Rattle.codec.specs.Output.{refused_line, led, parted};

use std::alloc::AllocError;
use std::fmt;

/// A refusal: its number and its place, printed as in `refused 2 at 0`.
// A number, and no enum: it is the printed form. What is refused is an enum in each crate that refuses.
#[derive(Clone, Copy, PartialEq, Eq, Debug)]
pub struct Refused {
    pub number: u64,
    pub place: u64,
}

impl fmt::Display for Refused {
    ghost output = { λ r. Some (refused_line r.number r.place) };

    fn fmt<W: fmt::Write>(&self, f: &mut fmt::Formatter<W>) -> fmt::Result {
        let number = self.number;
        let place = self.place;
        write!(f, "refused {number} at {place}")
    }
}

/// Appends each number with `before` before it.
fn push_led(text: &mut String, before: &str, numbers: &[u64]) -> Result<(), AllocError>
    ensures { OnOk result (string_bytes text.new ≡
        string_bytes text.old ++ led before.now numbers.now) }
{
    for number in numbers {
        write!(text, "{before}{number}")?;
    }
    Ok(())
}

/// Appends numbers with `between` between them; where memory runs out, maybe only some of them.
pub fn push_parted(text: &mut String, between: &str, numbers: &[u64]) -> Result<(), AllocError>
    ensures { OnOk result (string_bytes text.new ≡
        string_bytes text.old ++ parted between.now numbers.now) }
{
    let [first, rest @ ..] = numbers else {
        return Ok(());
    };
    write!(text, "{first}")?;
    push_led(text, between, rest)
}
