// A whole file.
ghost use Rattle.std.specs.Prelude.{◌≡◌, cond, drop};
ghost use Rattle.markup.specs.Document.{declares, declaration, misc_step, misc, document, in_markup};
ghost use Rattle.markup.specs.View.{view_move, ok_past, view_misc, ok_misc, view_document, document_answer, ok_document};

use crate::bytes::{all_in_file, is_ws, part, peek, run_end, same};
use crate::{Cursor, Misc};

#[tactic(auto, unfolding(crate::specs::Document::declares))]
fn declares(s: &[u8]) -> bool
    ensures { result ≡ declares s.now }
{
    same(part(s, 0, 5), b"<?xml") & is_ws(peek(s, 5))
}

// The place after the declaration, if there is one.
#[tactic(auto, unfolding(crate::specs::Document::declaration))]
pub fn declaration(s: &[u8]) -> Option<Cursor>
    ensures { (view_move s.now result ≡ declaration s.now) × ok_past s.now 0 result }
{
    if declares(s) {
        let first = Cursor { at: 6 };
        first.declared(s)
    } else {
        Some(Cursor { at: 0 })
    }
}

impl Cursor {
    // A comment after white space, or the end of both.
    #[tactic(auto, using(crate::proofs::AtFile::misc_at, crate::proofs::AtBytes::run_onward))]
    pub fn misc_step(self, s: &[u8]) -> Option<Misc>
        ensures { (view_misc s.now result ≡ misc_step (drop self.at s.now)) × ok_misc s.now self.at result }
    {
        let at = run_end(s, self.at, is_ws);
        if peek(s, at) == b'<' && peek(s, at + 1) == b'!' {
            let inner = Cursor { at: at + 2 };
            let done = inner.dashed(s)?;
            return Some(Misc::More(done));
        }
        Some(Misc::Done(Cursor { at }))
    }

    // White space and comments.
    pub fn misc(self, s: &[u8]) -> Option<Cursor>
        ensures { (view_move s.now result ≡ misc (drop self.at s.now)) × ok_past s.now self.at result }
    {
        let mut here = self;
        loop {
            match here.misc_step(s)? {
                Misc::More(next) => {
                    here = next;
                }
                Misc::Done(end) => {
                    return Some(end);
                }
            }
        }
    }
}

// The root element of a file in the markup.
pub fn document(s: &[u8]) -> Option<Cursor>
    ensures { (view_document s.now result ≡ document s.now) × (document_answer result ≡ cond (in_markup s.now) 0 5) × ok_document s.now result }
{
    if !all_in_file(s) {
        return None;
    }
    let start = declaration(s)?;
    let root = start.misc(s)?;
    let after = root.element(s, 12)?;
    let last = after.misc(s)?;
    if last.at < s.len() {
        return None;
    }
    Some(root)
}

// The file is in the markup.
pub fn in_markup(s: &[u8]) -> bool
    ensures { result ≡ in_markup s.now }
{
    document(s).is_some()
}
