//! A question: a whole query over tables that fit.
ghost use Rattle.query.specs.Parse.{Whole};

use tables::Tables;

/// A whole query over tables that fit: its operators, and how wide its rows are.
#[derive(Clone, Copy)]
pub struct Question<'a> {
    pub tables: Tables<'a>,
    pub signs: &'a [u64],
    pub width: usize,
    pub ghost whole: { Whole tables.memory.now signs.now width },
}
