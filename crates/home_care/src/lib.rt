// Home care's fields (RULES.md, 4 The register, 5 Sound means): the row's table, fields in its bits, what is allowed.
#![tactic(auto)]

pub mod allowed;
pub mod evaluation;
pub mod event_bits;
pub mod event_rows;
pub mod layout;
pub mod pack;
pub mod row;
pub mod texts;
