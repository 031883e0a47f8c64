// What is read of a file in the markup: its tree's laws (specs/ and proofs/), and the code that reads an element again.
#![tactic(auto)]

pub mod skips;
