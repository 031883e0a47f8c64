// The two schemas of SIAD 6.4 (4.5.2, 4.6.2) as tables, and a file held against its track's. The tables are printed from specs/ by tools/tables.py.
#![tactic(auto)]

pub mod shapes;
pub mod tables;
