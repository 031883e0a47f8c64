// No code: the P cases (RULES.md, 12), which are proved of the definitions (specs/Table.antt).
#![tactic(auto)]

fn nothing() {}
