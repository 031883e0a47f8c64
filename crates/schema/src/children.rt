// The children of a group, held against the rows of its nodes.
ghost use Rattle.std.specs.Prelude.{◌≡◌, List, ℕ};
ghost use Rattle.schema.specs.Shape.{may_come, enough};
ghost use Rattle.schema.specs.Table.{head_at};
ghost use Rattle.schema.specs.View.{nodes_from, Sought, Spotted};

use crate::name_at;
use crate::table::{LEAST, MOST, Rows, Tables};
use markup::bytes::part;

// Where a child stands: the item of its group's rows, and how many of that item have been before.
#[derive(Clone, Copy)]
pub struct Spot {
    pub item: usize,
    pub count: usize,
}

impl Spot {
    pub const START: Spot = Spot { item: 0, count: 0 };
}

impl Tables<'_> {
    // One more of a row may come after so many.
    fn may_come(&self, row: usize, count: usize, x: &[u8]) -> bool
        ensures { (ranges : List ℕ) → result ≡ may_come x.now (head_at self.now.table.now self.now.pool.now ranges row) count }
    {
        let most = self.cell(row, MOST) as usize;
        (x == self.name_of(row)) & ((most == 0) | (count < most))
    }

    // The item of a name, from an item on of which so many have been.
    fn seek(&self, rows: Rows, from: Spot, x: &[u8]) -> Option<Spot>
        ensures { Sought self.now.table.now self.now.pool.now x.now rows.first rows.n from.item from.count result }
    {
        let mut count = from.count;
        for item in from.item..rows.n {
            let row = rows.first + item;
            if self.may_come(row, count, x) {
                return Some(Spot { item, count });
            }
            if count < self.cell(row, LEAST) as usize {
                return None;
            }
            count = 0;
        }
        None
    }

    // None that must come is left, from an item on of which so many have been.
    pub fn enough(&self, rows: Rows, from: Spot) -> bool
        ensures { (pool ranges : List ℕ) (d : ℕ) → result ≡ enough (nodes_from self.now.table.now pool ranges d rows.first rows.n from.item) from.count }
    {
        let mut count = from.count;
        for item in from.item..rows.n {
            if count < self.cell(rows.first + item, LEAST) as usize {
                return false;
            }
            count = 0;
        }
        true
    }

    // Where the child at a place stands.
    pub fn spot_of(&self, s: &[u8], at: usize, rows: Rows, from: Spot) -> Option<Spot>
        ensures { Spotted self.now.table.now self.now.pool.now s.now at rows.first rows.n from.item from.count result }
    {
        let name = name_at(s, at)?;
        self.seek(rows, from, part(s, name.start, name.end))
    }
}
