// A cancellation file read back, and taken again: specs/ and proofs/ alone, no code.
#![tactic(auto)]

fn nothing() {}
