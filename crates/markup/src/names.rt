// White space, single bytes, names and values.
ghost use Rattle.std.specs.Prelude.{◌≡◌, drop};
ghost use Rattle.markup.specs.NamesAndValues.{skip_ws, byte, name, value};
ghost use Rattle.markup.specs.View.{onward, view_move, ok_move, view_got, ok_got};

use crate::bytes::{in_value, is_name, is_name_start, is_ws, peek, run_end};
use crate::{Cursor, Text};

impl Cursor {
    pub fn skip_ws(self, s: &[u8]) -> Cursor
        ensures { (drop result.at s.now ≡ skip_ws (drop self.at s.now)) × onward s.now self.at result.at }
    {
        let at = run_end(s, self.at, is_ws);
        Cursor { at }
    }

    // The byte b.
    #[tactic(auto, using(crate::proofs::AtNames::byte_yes, crate::proofs::AtNames::byte_no, crate::proofs::AtNames::byte_end))]
    pub fn expect(self, s: &[u8], b: u8) -> Option<Cursor>
        ensures { (view_move s.now result ≡ byte b (drop self.at s.now)) × ok_move s.now self.at result }
    {
        let at = self.at;
        if at < s.len() && s[at] == b {
            Some(Cursor { at: at + 1 })
        } else {
            None
        }
    }

    #[tactic(auto, using(crate::proofs::AtNames::name_yes, crate::proofs::AtNames::name_no, crate::proofs::AtNames::name_ahead))]
    pub fn name(self, s: &[u8]) -> Option<Text>
        ensures { (view_got s.now result ≡ name (drop self.at s.now)) × ok_got s.now self.at result }
    {
        let at = self.at;
        if is_name_start(peek(s, at)) {
            let end = run_end(s, at, is_name);
            return Some(Text {
                start: at,
                end,
                next: Cursor { at: end },
            });
        }
        None
    }

    // The text between two quotes.
    pub fn value(self, s: &[u8]) -> Option<Text>
        ensures { (view_got s.now result ≡ value (drop self.at s.now)) × ok_got s.now self.at result }
    {
        let at = self.at;
        let q = peek(s, at);
        if (q == b'"') | (q == b'\'') {
            let start = at + 1;
            let end = run_end(s, start, |b| in_value(q, b));
            let last = Cursor { at: end };
            let next = last.expect(s, q)?;
            Some(Text { start, end, next })
        } else {
            None
        }
    }
}
