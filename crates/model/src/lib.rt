// Ordered maps, checks in order, machines and flows: specs/ and proofs/ alone, no code.
#![tactic(auto)]

fn nothing() {}
