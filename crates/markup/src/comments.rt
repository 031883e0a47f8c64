// Comments and the declaration.
ghost use Rattle.std.specs.Prelude.{◌≡◌, ◌<◌, drop};
ghost use Rattle.markup.specs.Comments.{opens_other, closed_by, comment, dashed, declared};
ghost use Rattle.markup.specs.View.{view_move, ok_move};

use crate::Cursor;
use crate::bytes::peek;

// Two bytes that begin another `<?` or `<!`.
fn opens_other(b: u8, c: u8) -> bool
    ensures { result ≡ opens_other b c }
{
    (b == b'<') & ((c == b'?') | (c == b'!'))
}

impl Cursor {
    // The place after the first two bytes that are these.
    fn closed_by(self, s: &[u8], first: u8, second: u8) -> Option<Cursor>
        requires { 0 < second }
        ensures { (view_move s.now result ≡ closed_by first second (drop self.at s.now)) × ok_move s.now self.at result }
    {
        for at in self.at..s.len() {
            let b = s[at];
            let c = peek(s, at + 1);
            if (b == first) & (c == second) {
                return Some(Cursor { at: at + 2 });
            }
            if opens_other(b, c) {
                return None;
            }
        }
        None
    }

    // A comment's end, after `<!--`.
    #[tactic(auto, using(crate::proofs::AtComments::comment_closed))]
    pub fn comment(self, s: &[u8]) -> Option<Cursor>
        ensures { (view_move s.now result ≡ comment (drop self.at s.now)) × ok_move s.now self.at result }
    {
        let last = self.closed_by(s, b'-', b'-')?;
        last.expect(s, b'>')
    }

    // A comment, after `<!`.
    #[tactic(auto, unfolding(crate::specs::Comments::dashed))]
    pub fn dashed(self, s: &[u8]) -> Option<Cursor>
        ensures { (view_move s.now result ≡ dashed (drop self.at s.now)) × ok_move s.now self.at result }
    {
        let one = self.expect(s, b'-')?;
        let two = one.expect(s, b'-')?;
        two.comment(s)
    }

    // The declaration's end, after `<?xml` and a byte of white space.
    #[tactic(auto, using(crate::proofs::AtComments::declared_closed))]
    pub fn declared(self, s: &[u8]) -> Option<Cursor>
        ensures { (view_move s.now result ≡ declared (drop self.at s.now)) × ok_move s.now self.at result }
    {
        self.closed_by(s, b'?', b'>')
    }
}
