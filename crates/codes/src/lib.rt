// Sets of characters, digits and code lists (RULES.md, 2 The shape of a record).
#![tactic(auto)]

pub mod characters;
pub mod code_lists;
pub mod digits;
