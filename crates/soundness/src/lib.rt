// The register is sound or it is not; a case is found in it (RULES.md, 5 Sound means, 10 The calls).
#![tactic(auto)]

pub mod find;
pub mod one_case;
pub mod sound;
