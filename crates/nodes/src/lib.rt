// Looking things up in an element that stands in a file: a child by its name, an attribute's value, a leaf's text.
#![tactic(auto)]

pub mod children;
pub mod several;
pub mod values;

// An element: the place of its `<`, and the levels that it has at most; 0 levels where it is missing.
// No Option: a child of what is missing is missing, so a path of names needs no case at each step. And no file in it: one file, passed beside, is that of all
// the nodes that a clause speaks of (OfShape, tracks/specs/Top), and each node in an array would carry it again.
#[derive(Clone, Copy)]
pub struct Node {
    pub at: usize,
    pub levels: usize,
}

pub const MISSING: Node = Node { at: 0, levels: 0 };

// A text, by its places.
#[derive(Clone, Copy)]
pub struct Span {
    pub start: usize,
    pub end: usize,
}

// The text of what is missing: empty, as `text_of` and `attr_of` have it.
pub const EMPTY: Span = Span { start: 0, end: 0 };

// What stands in an element: the places of its name, the place after its start tag, and the levels that its children have at most.
#[derive(Clone, Copy)]
pub struct Opened {
    pub name: usize,
    pub name_end: usize,
    pub from: usize,
    pub levels: usize,
}

// Some children of an element, each the first of its name, and the place inside the element where the walk ended, if anything stands in it.
#[derive(Clone, Copy)]
pub struct Walked<const N: usize> {
    pub found: [Node; N],
    pub rest: Option<usize>,
}
