// Dates as text.
ghost use Rattle.std.specs.Prelude.{◌≡◌, cond, ◌+◌, ◌<◌, ◌≤◌, length, take, drop};
ghost use Rattle.laws.specs.Decimal.{is_digit, decimal};
ghost use Rattle.laws.specs.Lists.{all};
ghost use Rattle.days.specs.Dates.{date_at};
ghost use Rattle.days.specs.View.{view_date, ok_date, PartsAt};

use crate::calendar::{day_number, real_day};
use crate::table::Table;
use codes::digits::is_digit;

// A day's number, and where the text goes on.
#[derive(Clone, Copy)]
pub struct Date {
    pub day: u32,
    pub next: usize,
}

#[derive(Clone, Copy)]
pub struct Parts {
    pub year: u32,
    pub month: u32,
    pub day: u32,
}

// The number that a text of few digits writes, and 0 where one is no digit: no part of a date is 0. `read_digits` goes on where one is no digit, and tracks' `number`
// is of digits alone: one function of the three would have the clauses of all.
fn digits(s: &[u8]) -> u32
    requires { length s.now ≤ 4 }
    ensures { (result ≡ cond (all is_digit s.now) (decimal s.now) 0) × (result < 10000) }
{
    let mut number: u32 = 0;
    for b in s {
        if !is_digit(*b) {
            return 0;
        }
        number = number * 10 + (*b - b'0') as u32;
    }
    number
}

// The year, month and day of a real day at a place: ten bytes, whatever stands there. No table: a day's number is what wants one.
pub fn date_parts(s: &[u8], at: usize) -> Option<Parts>
    ensures { PartsAt s.now at result }
{
    if s.len().saturating_sub(at) < 10 {
        return None;
    }
    let text = &s[at..at + 10];
    if (text[4] != b'-') | (text[7] != b'-') {
        return None;
    }
    let year = digits(&text[..4]);
    let month = digits(&text[5..7]);
    let day = digits(&text[8..10]);
    if !real_day(year, month, day) {
        return None;
    }
    Some(Parts { year, month, day })
}

// A date at a place: ten bytes, whatever stands there.
pub fn read_date(t: &Table, s: &[u8], at: usize) -> Option<Date>
    ensures { (view_date s.now result ≡ date_at (drop at s.now)) × ok_date s.now at result }
{
    let parts = date_parts(s, at)?;
    Some(Date {
        day: day_number(t, parts.year, parts.month, parts.day),
        next: at + 10,
    })
}
