// The register's rows: fields bit-packed, read back, compared (RULES.md, R6).
#![tactic(auto)]

pub mod reader;
pub mod writer;
