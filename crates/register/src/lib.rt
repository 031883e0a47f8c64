// The register (RULES.md, 4 The register).
#![tactic(auto)]

pub mod counts;
pub mod emptying;
pub mod moving;
pub mod remove;
pub mod room;
pub mod row;
pub mod search;
