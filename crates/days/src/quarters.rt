// The declared quarter.
ghost use Rattle.std.specs.Prelude.{ℕ, ◌≡◌, true, cond, ◌&&◌, ◌<◌, leb};
ghost use Rattle.days.specs.DayNumbers.{day_number, real_day, day_count};
ghost use Rattle.days.specs.Quarters.{is_period};
ghost use Rattle.days.specs.View.{quarter_of, quarter_answer};

use crate::calendar::{day_number, month_length};
use crate::table::{Table, make};

#[derive(Clone, Copy)]
pub struct Quarter {
    pub first: u32,
    pub last: u32,
}

fn is_period(y: u64, q: u64) -> bool
    ensures { result ≡ is_period y q }
{
    ((2009 <= y) & (y <= 2099)) & ((1 <= q) & (q <= 4))
}

// A day's number, by a table of its own: its 9,600 bytes of stack are free again when this returns, so that the passes over a file, which come later, have
// the stack to themselves.
fn numbered(y: u32, m: u32, d: u32) -> u32
    requires { real_day y m d ≡ true }
    ensures { (result ≡ day_number y m d) × (result < day_count) }
{
    let t = make();
    day_number(&t, y, m, d)
}

// The quarter's first and last day, each numbered as the caller does it, or None for a year or a quarter that is not allowed.
fn quarter_by<F: Fn(u32, u32, u32) -> u32>(year: u64, quarter: u64, number: F) -> Option<Quarter>
    requires callable { (y m d : ℕ) → real_day y m d ≡ true → F.pre number y m d }
    requires numbers { (y m d n : ℕ) → real_day y m d ≡ true → F.post number y m d n → n ≡ day_number y m d }
    ensures { (result ≡ quarter_of year quarter) × (quarter_answer result ≡ cond (is_period year quarter) 0 1) }
{
    if !is_period(year, quarter) {
        return None;
    }
    let y = year as u32;
    let last = 3 * quarter as u32;
    Some(Quarter {
        first: number(y, last - 2, 1),
        last: number(y, last, month_length(y, last)),
    })
}

// By tables of its own, one for each day.
pub fn quarter_days(year: u64, quarter: u64) -> Option<Quarter>
    ensures { (result ≡ quarter_of year quarter) × (quarter_answer result ≡ cond (is_period year quarter) 0 1) }
{
    quarter_by(year, quarter, numbered)
}

// By a lent table, for a caller that has one on its own stack: two at once would be too much.
pub fn quarter_in(t: &Table, year: u64, quarter: u64) -> Option<Quarter>
    ensures { (result ≡ quarter_of year quarter) × (quarter_answer result ≡ cond (is_period year quarter) 0 1) }
{
    quarter_by(year, quarter, |y, m, d| day_number(t, y, m, d))
}

// judge and cancellation ask the same of wider days, each in its own comparison: one generic over both would name the bound that makes it one.
pub fn within(first: u32, last: u32, day: u32) -> bool
    ensures { result ≡ leb first day && leb day last }
{
    (first <= day) & (day <= last)
}
