// The first fault in an element, by a row of the table, and the number of counted elements in it: element by element, with one level less left in each.
ghost use Rattle.schema.specs.View.{Entered, Judged};

use crate::children::Spot;
use crate::steps::Step;
use crate::table::{Kind, Tables};
use crate::{Fault, Name, Past};
use markup::{Cursor, Ending};
use reading::skips::skip;

// The place past an element without fault, in which no counted elements stand; or that a group opened: where its name ends, and where what stands in it begins.
#[derive(Clone, Copy)]
pub enum Entry {
    Past(usize),
    Open { end: usize, inside: usize },
}

impl Tables<'_> {
    // The start tag at a place, of an element whose name is its row's: whoever found the row has compared the two, so the row tells where the name ends. An
    // element that may hold anything is passed by its tags alone.
    fn enter(&self, s: &[u8], at: usize, row: usize) -> Result<Entry, Fault>
        ensures { Entered self.now.table.now self.now.pool.now self.now.ranges.now s.now at row result }
    {
        if s.len() <= at {
            return Err(Fault { from: 0 });
        }
        let kind = self.kind(row);
        if let Kind::Another = kind {
            let done = skip(s, at).ok_or(Fault { from: 0 })?;
            return Ok(Entry::Past(done.at));
        }
        let from = s.len() - at;
        let start = at + 1;
        let end = start + self.name_of(row).len();
        if !self.attrs_fit(row, s, end) {
            return Err(Fault { from });
        }
        let named = Cursor { at: end };
        match named.attributes(s).ok_or(Fault { from: 0 })? {
            Ending::Shut(done) => {
                if self.may_be_empty(row) {
                    Ok(Entry::Past(done.at))
                } else {
                    Err(Fault { from })
                }
            }
            Ending::Open(done) => {
                let inside = done.at;
                if let Kind::Group = kind {
                    return Ok(Entry::Open { end, inside });
                }
                match self.leaf_inside(row, s, inside, Name { start, end }) {
                    Some(next) => Ok(Entry::Past(next)),
                    None => Err(Fault { from }),
                }
            }
        }
    }

    // The element at a place, of at most so many levels, whose name is its row's.
    pub fn fault(&self, s: &[u8], at: usize, levels: usize, row: usize) -> Result<Past, Fault>
        ensures { Judged self.now.table.now self.now.pool.now self.now.ranges.now s.now at levels row result }
    {
        if levels == 0 {
            return Err(Fault { from: 0 });
        }
        match self.enter(s, at, row)? {
            Entry::Past(next) => Ok(Past { next, count: 0 }),
            Entry::Open { end, inside } => {
                let name = Name { start: at + 1, end };
                let rows = self.children(row);
                let mut here = inside;
                let mut spot = Spot::START;
                let mut total = 0;
                loop {
                    match self.advance(s, here, name, rows, spot) {
                        None => {
                            return Err(Fault { from: s.len() - at });
                        }
                        Some(Step::Past(next)) => {
                            return Ok(Past { next, count: total });
                        }
                        Some(Step::On(next)) => {
                            here = next;
                        }
                        Some(Step::Child(now)) => {
                            let child_row = rows.first + now.item;
                            let child = self.fault(s, here, levels - 1, child_row)?;
                            here = child.next;
                            spot = Spot {
                                item: now.item,
                                count: now.count + 1,
                            };
                            total = total + child.count + self.marked(child_row);
                        }
                    }
                }
            }
        }
    }
}
