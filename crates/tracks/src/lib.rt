// The two tracks: a record's fields, read from its element (RULES.md, 2 The shape of a record).
#![tactic(auto)]

pub mod events;
pub mod fields;
pub mod record;
pub mod shapes;
pub mod wordings;
