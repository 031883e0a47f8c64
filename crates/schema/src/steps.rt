// One step through what stands in a group: the next piece, held against the rows of the group's nodes.
ghost use Rattle.schema.specs.View.{Stepped};

use crate::Name;
use crate::children::Spot;
use crate::leaves::all_ws;
use crate::table::{Rows, Tables};
use markup::bytes::part;
use markup::{Cursor, Piece};

// The place past the group, in which none is missing; the place past white space or a comment; or where a child stands.
#[derive(Clone, Copy)]
pub enum Step {
    Past(usize),
    On(usize),
    Child(Spot),
}

impl Tables<'_> {
    // The step from a place in a group of a name, by the group's rows, at an item of which so many have been; None for a fault that is the group's.
    pub fn advance(&self, s: &[u8], at: usize, name: Name, rows: Rows, from: Spot) -> Option<Step>
        ensures { Stepped self.now.table.now self.now.pool.now s.now at name.start name.end rows.first rows.n from.item from.count result }
    {
        let here = Cursor { at };
        match here.known_piece(s, name.start, name.end)? {
            Piece::Close(done) => self.enough(rows, from).then_some(Step::Past(done.at)),
            Piece::Words { start, end } => all_ws(part(s, start, end)).then_some(Step::On(end)),
            Piece::Aside(done) => Some(Step::On(done.at)),
            Piece::Kid => Some(Step::Child(self.spot_of(s, at, rows, from)?)),
        }
    }
}
