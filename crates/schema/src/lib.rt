// The shape of a file: one interpreter of schema tables, over any table that is lent.
#![tactic(auto)]

ghost use Rattle.std.specs.Prelude.{◌≡◌, ◌+◌, drop};
ghost use Rattle.markup.specs.NamesAndValues.{name};
ghost use Rattle.markup.specs.View.{view_got, ok_got};

pub mod attrs;
pub mod children;
pub mod elements;
pub mod file;
pub mod leaves;
pub mod steps;
pub mod table;
pub mod texts;
pub mod too_many;

use markup::{Cursor, Text};

// An element that has no fault: the place past it, and how many counted elements stand in it.
#[derive(Clone, Copy)]
pub struct Past {
    pub next: usize,
    pub count: usize,
}

// The first fault in an element, as the bytes left at the `<` of the element that it is told of.
#[derive(Clone, Copy)]
pub struct Fault {
    pub from: usize,
}

// Where an element's name stands.
#[derive(Clone, Copy)]
pub struct Name {
    pub start: usize,
    pub end: usize,
}

// The name of the element at a place, read from past its `<` on.
fn name_at(s: &[u8], at: usize) -> Option<Text>
    ensures { (view_got s.now result ≡ name (drop (at + 1) s.now)) × ok_got s.now (at + 1) result }
{
    if s.len() <= at {
        return None;
    }
    let first = Cursor { at: at + 1 };
    first.name(s)
}
