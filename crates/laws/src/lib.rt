// Definitions and lemmas that several crates cite: specs/ and proofs/ alone, no code.
#![tactic(auto)]

fn nothing() {}
