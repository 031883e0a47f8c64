// The children of an element: one after the other, and by their names.
ghost use Rattle.std.specs.Prelude.{◌≡◌, List, ℕ, drop};
ghost use Rattle.laws.specs.Lists.{same};
ghost use Rattle.markup.specs.NamesAndValues.Read.{read};
ghost use Rattle.markup.specs.Elements.{Inside, Tree, element, kids};
ghost use Rattle.markup.specs.View.{part};
ghost use Rattle.nodes.specs.Lookup.{first_named, child_of, has_child};
ghost use Rattle.nodes.specs.Stands.{Stands, Holds, HoldsIn, Entered, EndsBefore, ok_entry, NextKid, ok_kid};

use crate::{MISSING, Node, Opened};
use markup::bytes::{part, same};
use markup::{Cursor, Ending, Piece};
use reading::skips::{head, skip};

// What stands in an element: by its name and the end of its start tag, since the attributes were held against each other when the file was read.
pub fn enter(s: &[u8], n: Node) -> Option<Opened>
    ensures { ((t : Tree) → Stands n.levels (drop n.at s.now) t → Entered s.now t result) × ((t : Tree) (m : List ℕ) → element n.levels (drop n.at s.now) ≡ read t m → EndsBefore s.now m result) × ok_entry n.at result }
{
    if n.levels == 0 {
        return None;
    }
    let name = head(s, n.at)?;
    match name.next.attributes(s)? {
        Ending::Open(done) => Some(Opened {
            name: name.start,
            name_end: name.end,
            from: done.at,
            levels: n.levels - 1,
        }),
        Ending::Shut(_) => None,
    }
}

// The next child from a place inside an element on.
pub fn next_kid(s: &[u8], inside: Opened, from: usize) -> Option<usize>
    ensures { ((d : ℕ) (i : Inside) → Holds d (part s.now inside.name inside.name_end) (drop from s.now) i → NextKid d (part s.now inside.name inside.name_end) s.now (kids i) result) × ok_kid from result }
{
    let mut at = from;
    loop {
        let here = Cursor { at };
        match here.next_piece(s, inside.name, inside.name_end)? {
            Piece::Words { end, .. } => at = end,
            Piece::Aside(done) => at = done.at,
            Piece::Close(_) => return None,
            Piece::Kid => return Some(at),
        }
    }
}

// The element at a place has the name x.
pub fn is_named(s: &[u8], at: usize, x: &[u8]) -> bool
    ensures { (d : ℕ) (t : Tree) (m : List ℕ) → element d (drop at s.now) ≡ read t m → result ≡ same x.now t.named }
{
    head(s, at).is_some_and(|name| same(x, part(s, name.start, name.end)))
}

// The first child named x of what stands in an element.
fn child_from(s: &[u8], inside: Opened, x: &[u8]) -> Node
    ensures { (i : Inside) → HoldsIn s.now inside i → Stands result.levels (drop result.at s.now) (first_named x.now (kids i)) }
{
    let mut at = inside.from;
    loop {
        let Some(q) = next_kid(s, inside, at) else {
            return MISSING;
        };
        if is_named(s, q, x) {
            return Node {
                at: q,
                levels: inside.levels,
            };
        }
        let Some(done) = skip(s, q) else {
            return MISSING;
        };
        at = done.at;
    }
}

// The first child named x.
pub fn child(s: &[u8], n: Node, x: &[u8]) -> Node
    ensures { (t : Tree) → Stands n.levels (drop n.at s.now) t → Stands result.levels (drop result.at s.now) (child_of x.now t) }
{
    match enter(s, n) {
        Some(inside) => child_from(s, inside, x),
        None => MISSING,
    }
}

// There is a child named x.
pub fn has_child(s: &[u8], n: Node, x: &[u8]) -> bool
    ensures { (t : Tree) → Stands n.levels (drop n.at s.now) t → result ≡ has_child x.now t }
{
    child(s, n, x).levels != 0
}
