// What is read again in a file that is known to be in the markup: an element's name, and its end, found by its tags alone. No name is compared and no
// attribute held against another, since answer 5 has done that.
ghost use Rattle.std.specs.Prelude.{◌≡◌, List, ℕ, drop};
ghost use Rattle.markup.specs.NamesAndValues.{then, byte, name};
ghost use Rattle.markup.specs.NamesAndValues.Read.{read};
ghost use Rattle.markup.specs.Tags.{Tag, tag};
ghost use Rattle.markup.specs.Elements.{Inside, Tree, content, element};
ghost use Rattle.markup.specs.View.{view_got, ok_got, view_move, ok_move, view_ending, ok_ending, left};

use markup::bytes::{in_value, is_name, is_text, peek, run_end};
use markup::{Cursor, Ending, Text};

// The name at an element's `<`: the rest of its start tag isn't read.
pub fn head(s: &[u8], at: usize) -> Option<Text>
    ensures { (view_got s.now result ≡ then (byte 60 (drop at s.now)) (λ _ m. name m)) × ok_got s.now at result }
{
    let here = Cursor { at };
    let first = here.expect(s, b'<')?;
    first.name(s)
}

// The end of the start tag at a place.
fn tag_end(s: &[u8], at: usize) -> Option<Ending>
    ensures { ((g : Tag) (m : List ℕ) → tag (drop at s.now) ≡ read g m → view_ending s.now result ≡ read g.shut m) × ok_ending s.now at result }
{
    let name = head(s, at)?;
    name.next.attributes(s)
}

// The end of an element, from a place in it on; `open` elements are open at `at`.
pub fn past(s: &[u8], from: usize) -> Option<Cursor>
    ensures { ((d : ℕ) (n : List ℕ) (i : Inside) (m : List ℕ) → content (element d) n (drop from s.now) ≡ read i m → view_move s.now result ≡ read tt m) × ok_move s.now from result }
{
    if s.len() < from {
        return None;
    }
    let mut at = from;
    let mut open: usize = 1;
    loop {
        let q = run_end(s, at, is_text);
        let b = peek(s, q + 1);
        if b == b'/' {
            if open == 1 {
                let last = Cursor {
                    at: run_end(s, q + 2, |b| in_value(b'>', b)),
                };
                return last.expect(s, b'>');
            }
            open -= 1;
            at = q + 2;
        } else if b == b'!' {
            let inner = Cursor { at: q + 2 };
            let done = inner.dashed(s)?;
            at = done.at;
        } else {
            let end = run_end(s, q + 1, is_name);
            if peek(s, end) == b'>' {
                open += 1;
                at = end + 1;
            } else {
                match tag_end(s, q)? {
                    Ending::Shut(done) => {
                        at = done.at;
                    }
                    Ending::Open(done) => {
                        open += 1;
                        at = done.at;
                    }
                }
            }
        }
    }
}

// The end of the element at a place.
pub fn skip(s: &[u8], at: usize) -> Option<Cursor>
    ensures { ((d : ℕ) (t : Tree) (m : List ℕ) → element d (drop at s.now) ≡ read t m → view_move s.now result ≡ left (element d (drop at s.now))) × ok_move s.now at result }
{
    match tag_end(s, at)? {
        Ending::Shut(done) => Some(done),
        Ending::Open(done) => past(s, done.at),
    }
}
