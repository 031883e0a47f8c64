// A record judged against a sound register (RULES.md, 7 Anomalies of a record).
#![tactic(auto)]

pub mod case_fields;
pub mod case_rows;
pub mod check_order;
pub mod clashes;
pub mod event_dates;
pub mod standing;

ghost use Rattle.judge.specs.View.{IsAskedBy};

use home_care::layout::ROW;

// The declared quarter's first and last day, and the register's room.
#[derive(Clone, Copy)]
pub struct Limits {
    pub first: u64,
    pub last: u64,
    pub room: usize,
}

// A record's type, its day of taking in, and a row with its case's key.
#[derive(Drop)]
pub struct Heading {
    pub tipo: u8,
    pub taken: u64,
    pub probe: [u8; ROW],
}

// What two events of a case clash in: 22, 26, 27 and 28.
#[derive(Clone, Copy, Debug, PartialEq, Eq)]
pub enum Clash {
    OneKey,
    SharedDay,
    TwoConclusions,
    AfterConclusion,
}

// By the number of the check that asks for it. The functions that docs/ names take the number, and any number.
impl From<u64> for Clash {
    ghost from_gives = { IsAskedBy };

    fn from(number: u64) -> Clash {
        match number {
            22 => Clash::OneKey,
            26 => Clash::SharedDay,
            27 => Clash::TwoConclusions,
            _ => Clash::AfterConclusion,
        }
    }
}
