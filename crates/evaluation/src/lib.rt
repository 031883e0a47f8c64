// The evaluation in force on a day (RULES.md, 15 The evaluation in force).
#![tactic(auto)]

pub mod in_force;
