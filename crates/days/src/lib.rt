// Day numbers, dates as text, quarters (RULES.md, 3 Day numbers).
#![tactic(auto)]

pub mod calendar;
pub mod dates;
pub mod quarters;
pub mod table;
pub mod written;
