// A cancellation file, written from the register (RULES.md, 14 A cancellation file).
#![tactic(auto)]

pub mod choice;
pub mod event_text;
pub mod records;
pub mod survey;
pub mod write;
