// RULES.md, 7 Anomalies of a record: what the code asks of a record's type, and the anomalies' numbers. The checks themselves are definitions (specs/); crate judge asks them.
#![tactic(auto)]

pub mod anomaly;
pub mod kinds;
