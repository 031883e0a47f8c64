// What stands in a leaf, and in an element that is empty.
ghost use Rattle.std.specs.Prelude.{◌≡◌, cond, List, ℕ};
ghost use Rattle.laws.specs.Lists.{all};
ghost use Rattle.markup.specs.Bytes.{is_ws};
ghost use Rattle.markup.specs.Elements.Inside.{end};
ghost use Rattle.schema.specs.Shape.{leaf_fits};
ghost use Rattle.schema.specs.Table.{texts_of};
ghost use Rattle.schema.specs.View.{is_end, fault_within, LeafJudged};

use crate::Name;
use crate::children::Spot;
use crate::table::{Kind, Tables};
use markup::bytes::{is_ws, part};
use markup::{Cursor, Piece};

pub fn all_ws(text: &[u8]) -> bool
    ensures { result ≡ all is_ws text.now }
{
    text.iter().all(|b| is_ws(*b))
}

// Nothing more stands in an element of a name: the place past it.
fn end_of(s: &[u8], start: usize, name: Name) -> Option<usize>
    ensures { LeafJudged s.now start name.start name.end is_end result }
{
    let here = Cursor { at: start };
    match here.known_piece(s, name.start, name.end)? {
        Piece::Close(done) => Some(done.at),
        _ => None,
    }
}

impl Tables<'_> {
    // A leaf's text of a row, and nothing else: the place past the leaf. Inlined in its one caller, it costs no call.
    #[inline(always)]
    pub fn leaf_inside(&self, row: usize, s: &[u8], start: usize, name: Name) -> Option<usize>
        ensures { (pool : List ℕ) → LeafJudged s.now start name.start name.end (leaf_fits (texts_of self.now.table.now pool self.now.ranges.now row)) result }
    {
        let here = Cursor { at: start };
        match here.known_piece(s, name.start, name.end)? {
            Piece::Words { start: text, end } => {
                if self.fits_text(row, part(s, text, end)) {
                    end_of(s, end, name)
                } else {
                    None
                }
            }
            Piece::Close(done) => self.fits_text(row, b"").then_some(done.at),
            _ => None,
        }
    }

    // An element of a row may be empty.
    pub fn may_be_empty(&self, row: usize) -> bool
        ensures { (pool : List ℕ) (d z : ℕ) → cond result 0 z ≡ fault_within self.now.table.now pool self.now.ranges.now d row z end }
    {
        match self.kind(row) {
            Kind::Group => self.enough(self.children(row), Spot::START),
            _ => self.fits_text(row, b""),
        }
    }
}
