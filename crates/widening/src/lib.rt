// A register in rows of 91 bytes into the register's own (RULES.md, 16 A register converted).
#![tactic(auto)]

pub mod convert;
