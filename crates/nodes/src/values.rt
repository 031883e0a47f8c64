// An element's attributes and its text.
ghost use Rattle.std.specs.Prelude.{◌≡◌, List, ℕ, drop};
ghost use Rattle.markup.specs.NamesAndValues.Read.{read};
ghost use Rattle.markup.specs.Tags.{Attributes, attributes};
ghost use Rattle.markup.specs.Elements.{Tree};
ghost use Rattle.markup.specs.View.{part, held};
ghost use Rattle.nodes.specs.Lookup.{text_of};
ghost use Rattle.nodes.specs.Stands.{Stands, Valued, ok_value};

use crate::children::enter;
use crate::{EMPTY, Node, Span};
use markup::bytes::{part, same};
use markup::{Cursor, Piece, TagStep};
use reading::skips::head;

// The value of the attribute x, from the place after a tag's name: by markup's step itself, one test of what it gives, as schema's private reader is.
fn value_from(s: &[u8], after: usize, x: &[u8]) -> Option<Span>
    ensures { ((a : Attributes) (m : List ℕ) → attributes (drop after s.now) ≡ read a m → Valued s.now x.now a.pairs result) × ok_value s.now result }
{
    let mut at = after;
    loop {
        let here = Cursor { at };
        let TagStep::More(a) = here.attributes_step(s)? else {
            return None;
        };
        if same(x, part(s, a.name, a.name_end)) {
            return Some(Span {
                start: a.value,
                end: a.value_end,
            });
        }
        at = a.next.at;
    }
}

// The value of the attribute x.
pub fn attribute(s: &[u8], n: Node, x: &[u8]) -> Option<Span>
    ensures { ((t : Tree) → Stands n.levels (drop n.at s.now) t → Valued s.now x.now t.pairs result) × ok_value s.now result }
{
    if n.levels == 0 {
        return None;
    }
    let name = head(s, n.at)?;
    value_from(s, name.next.at, x)
}

// The text that a leaf begins with.
pub fn text(s: &[u8], n: Node) -> Span
    ensures { ((t : Tree) → Stands n.levels (drop n.at s.now) t → part s.now result.start result.end ≡ text_of t) × held s.now result.start result.end }
{
    let Some(inside) = enter(s, n) else {
        return EMPTY;
    };
    let here = Cursor { at: inside.from };
    let Some(first) = here.next_piece(s, inside.name, inside.name_end) else {
        return EMPTY;
    };
    let Piece::Words { start, end } = first else {
        return EMPTY;
    };
    Span { start, end }
}
