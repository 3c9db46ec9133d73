//! Questions read from the numbers of their operators.
ghost use Rattle.query.specs.Agree.{Asked};

use crate::question::Question;
use crate::syntax::{Faulty, parse};
use tables::Tables;

impl<'a> Question<'a> {
    /// The question that `signs` are, or the operator at which they are faulty.
    pub fn read(tables: Tables<'a>, signs: &'a [u64]) -> Result<Question<'a>, Faulty>
        ensures { Asked tables.entry.memory.now signs.now result }
    {
        let width = parse(tables.memory, signs)?;
        Ok(Question {
            tables,
            signs,
            width,
        })
    }
}
