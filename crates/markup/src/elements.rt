// What stands in an element, and the element.
ghost use Rattle.std.specs.Prelude.{◌≡◌, drop};
ghost use Rattle.markup.specs.NamesAndValues.Read.{refused};
ghost use Rattle.markup.specs.Elements.{piece, element};
ghost use Rattle.markup.specs.View.{part, WholeName, view_move, ok_move, view_piece, ok_piece, left};

use crate::bytes::{begins, is_text, part, peek, run_end};
use crate::{Cursor, Ending, Piece};

impl Cursor {
    // What stands next inside the element of the name.
    pub fn next_piece(self, s: &[u8], name: usize, name_end: usize) -> Option<Piece>
        ensures { (view_piece s.now self.at result ≡ piece (part s.now name name_end) (drop self.at s.now)) × ok_piece s.now self.at result }
    {
        let at = self.at;
        if s.len() <= at {
            return None;
        }
        if s[at] != b'<' {
            let end = run_end(s, at, is_text);
            return Some(Piece::Words { start: at, end });
        }
        let b = peek(s, at + 1);
        let inner = Cursor { at: at + 2 };
        if b == b'/' {
            let done = inner.end_tag(s, name, name_end)?;
            return Some(Piece::Close(done));
        }
        if b == b'!' {
            let done = inner.dashed(s)?;
            return Some(Piece::Aside(done));
        }
        Some(Piece::Kid)
    }

    // The same where it is known that a piece stands there: an end tag is passed by the length of its name.
    pub fn known_piece(self, s: &[u8], name: usize, name_end: usize) -> Option<Piece>
        ensures { ((piece (part s.now name name_end) (drop self.at s.now) ≡ refused → ⊥) → view_piece s.now self.at result ≡ piece (part s.now name name_end) (drop self.at s.now)) × ok_piece s.now self.at result }
    {
        let at = self.at;
        if peek(s, at) == b'<' && peek(s, at + 1) == b'/' {
            let n = part(s, name, name_end);
            let after = Cursor {
                at: at + 2 + n.len(),
            };
            let done = after.close(s)?;
            return Some(Piece::Close(done));
        }
        self.next_piece(s, name, name_end)
    }

    // The same for an element whose name is one: an end tag is held against its bytes. A longer name is refused
    // without being read, since it goes on with a byte that is neither white space nor `>`. It can't go on by `known_piece`, which promises nothing of what is
    // refused.
    pub fn own_piece(self, s: &[u8], name: usize, name_end: usize) -> Option<Piece>
        ensures { (WholeName (part s.now name name_end) → view_piece s.now self.at result ≡ piece (part s.now name name_end) (drop self.at s.now)) × ok_piece s.now self.at result }
    {
        let at = self.at;
        if peek(s, at) == b'<' && peek(s, at + 1) == b'/' {
            let n = part(s, name, name_end);
            let inner = at + 2;
            if !begins(s, inner, n) {
                return None;
            }
            let after = Cursor {
                at: inner + n.len(),
            };
            let done = after.close(s)?;
            return Some(Piece::Close(done));
        }
        self.next_piece(s, name, name_end)
    }

    // An element of at most so many levels.
    #[tactic(auto, using(crate::proofs::AtElements::element_none, crate::proofs::AtElements::element_bad, crate::proofs::AtElements::element_shut))]
    pub fn element(self, s: &[u8], levels: usize) -> Option<Cursor>
        ensures { (view_move s.now result ≡ left (element levels (drop self.at s.now))) × ok_move s.now self.at result }
    {
        if levels == 0 {
            return None;
        }
        let start = self.start(s)?;
        match start.ending {
            Ending::Shut(next) => Some(next),
            Ending::Open(next) => {
                let mut here = next;
                loop {
                    match here.own_piece(s, start.name, start.name_end)? {
                        Piece::Close(done) => {
                            return Some(done);
                        }
                        Piece::Words { end, .. } => {
                            here = Cursor { at: end };
                        }
                        Piece::Aside(done) => {
                            here = done;
                        }
                        Piece::Kid => {
                            here = here.element(s, levels - 1)?;
                        }
                    }
                }
            }
        }
    }
}
