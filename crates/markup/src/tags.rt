// Start tags with their attributes, and end tags.
ghost use Rattle.std.specs.Prelude.{◌≡◌, drop};
ghost use Rattle.markup.specs.NamesAndValues.{skip_ws, byte};
ghost use Rattle.markup.specs.Tags.{attribute, attributes_step, attributes, tag, end_tag};
ghost use Rattle.markup.specs.View.{part, view_move, ok_move, view_attribute, ok_attribute, view_tag_step, ok_tag_step, view_ending, ok_ending, ending_of, view_start, ok_start};

use crate::bytes::{is_ws, part, peek, run_end, same};
use crate::repeats::differ;
use crate::{Attribute, Cursor, Ending, Start, TagStep};

impl Cursor {
    // An attribute, after white space.
    #[tactic(auto, unfolding(crate::specs::Tags::attribute))]
    pub fn attribute(self, s: &[u8]) -> Option<Attribute>
        ensures { (view_attribute s.now result ≡ attribute (drop self.at s.now)) × ok_attribute s.now self.at result }
    {
        let name = self.name(s)?;
        let equal = name.next.skip_ws(s);
        let after = equal.expect(s, b'=')?;
        let quote = after.skip_ws(s);
        let value = quote.value(s)?;
        Some(Attribute {
            name: name.start,
            name_end: name.end,
            value: value.start,
            value_end: value.end,
            next: value.next,
        })
    }

    // An attribute, or the tag's end.
    pub fn attributes_step(self, s: &[u8]) -> Option<TagStep>
        ensures { (view_tag_step s.now result ≡ attributes_step (drop self.at s.now)) × ok_tag_step s.now self.at result }
    {
        let from = self.at;
        let at = run_end(s, from, is_ws);
        let b = peek(s, at);
        if b == b'>' {
            return Some(TagStep::Done(Ending::Open(Cursor { at: at + 1 })));
        }
        if b == b'/' {
            let slash = Cursor { at: at + 1 };
            let done = slash.expect(s, b'>')?;
            return Some(TagStep::Done(Ending::Shut(done)));
        }
        if at == from {
            return None;
        }
        let first = Cursor { at };
        let attribute = first.attribute(s)?;
        Some(TagStep::More(attribute))
    }

    // The rest of a start tag after its name, whatever the attributes' names.
    pub fn attributes(self, s: &[u8]) -> Option<Ending>
        ensures { (view_ending s.now result ≡ ending_of (attributes (drop self.at s.now))) × ok_ending s.now self.at result }
    {
        let from = self.at;
        if peek(s, from) == b'>' {
            return Some(Ending::Open(Cursor { at: from + 1 }));
        }
        let mut here = self;
        loop {
            match here.attributes_step(s)? {
                TagStep::More(attribute) => {
                    here = attribute.next;
                }
                TagStep::Done(ending) => {
                    return Some(ending);
                }
            }
        }
    }

    // A start tag.
    #[tactic(auto, unfolding(crate::specs::Tags::tag), using(crate::proofs::AtTags::attributes_none, crate::proofs::AtTags::tag_end, crate::proofs::AtTags::tag_bad))]
    pub fn start(self, s: &[u8]) -> Option<Start>
        ensures { (view_start s.now result ≡ tag (drop self.at s.now)) × ok_start s.now self.at result }
    {
        let first = self.expect(s, b'<')?;
        let name = first.name(s)?;
        let after = name.next.at;
        if peek(s, after) == b'>' {
            return Some(Start {
                name: name.start,
                name_end: name.end,
                after,
                ending: Ending::Open(Cursor { at: after + 1 }),
            });
        }
        // What is refused anyway costs no look at the names.
        let ending = name.next.attributes(s)?;
        if !differ(s, after) {
            return None;
        }
        Some(Start {
            name: name.start,
            name_end: name.end,
            after,
            ending,
        })
    }

    // The rest of an end tag after its name.
    pub fn close(self, s: &[u8]) -> Option<Cursor>
        ensures { (view_move s.now result ≡ byte 62 (skip_ws (drop self.at s.now))) × ok_move s.now self.at result }
    {
        let last = self.skip_ws(s);
        last.expect(s, b'>')
    }

    // An end tag of the name, after `</`.
    #[tactic(auto, unfolding(crate::specs::Tags::end_tag))]
    pub fn end_tag(self, s: &[u8], name: usize, name_end: usize) -> Option<Cursor>
        ensures { (view_move s.now result ≡ end_tag (part s.now name name_end) (drop self.at s.now)) × ok_move s.now self.at result }
    {
        let found = self.name(s)?;
        if same(part(s, name, name_end), part(s, found.start, found.end)) {
            found.next.close(s)
        } else {
            None
        }
    }
}
