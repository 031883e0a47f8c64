// Answer 7 (RULES.md, F7): the first record with too many counted elements.
ghost use Rattle.std.specs.Prelude.{◌≡◌, cond, [], ltb};
ghost use Rattle.std.specs.Option.{option_or};
ghost use Rattle.schema.specs.Table.{limit_cell, cell};

use crate::table::{LIMIT, Tables};

impl Tables<'_> {
    // The first record with too many counted elements, after a record of this number that has so many.
    pub fn first_over(&self, over: Option<usize>, number: usize, count: usize) -> Option<usize>
        ensures { result ≡ option_or over (cond (ltb (cell self.now.table.now [] [] 0 limit_cell) count) (Some number) None) }
    {
        let most = self.cell(0, LIMIT) as usize;
        over.or((most < count).then_some(number))
    }
}
