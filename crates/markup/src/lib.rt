// The markup reader: a place in the input goes from reader to reader, and each answers what it read with the next place, or None, the refusal.
#![tactic(auto)]

pub mod bytes;
pub mod comments;
pub mod elements;
pub mod file;
pub mod names;
pub mod repeats;
pub mod tags;

// A place in the input.
#[derive(Clone, Copy)]
pub struct Cursor {
    pub at: usize,
}

// A name or a value: its places and the next place.
#[derive(Clone, Copy)]
pub struct Text {
    pub start: usize,
    pub end: usize,
    pub next: Cursor,
}

// An attribute: the places of its name and its value, and the next place.
#[derive(Clone, Copy)]
pub struct Attribute {
    pub name: usize,
    pub name_end: usize,
    pub value: usize,
    pub value_end: usize,
    pub next: Cursor,
}

// The end of a start tag, by `>` or by `/>`, and the next place.
#[derive(Clone, Copy)]
pub enum Ending {
    Open(Cursor),
    Shut(Cursor),
}

// What stands next in a start tag after its name: an attribute, or the tag's end.
#[derive(Clone, Copy)]
pub enum TagStep {
    More(Attribute),
    Done(Ending),
}

// A start tag: the places of its name, the place of its attributes, and its end.
#[derive(Clone, Copy)]
pub struct Start {
    pub name: usize,
    pub name_end: usize,
    pub after: usize,
    pub ending: Ending,
}

// What stands next inside an element; a child is yet to be read.
#[derive(Clone, Copy)]
pub enum Piece {
    Words { start: usize, end: usize },
    Aside(Cursor),
    Close(Cursor),
    Kid,
}

// What stands next outside the root: a comment, or the end of white space and comments.
#[derive(Clone, Copy)]
pub enum Misc {
    More(Cursor),
    Done(Cursor),
}
