// The calendar over the lent table.
ghost use Rattle.std.specs.Prelude.{◌≡◌, true, ◌<◌};
ghost use Rattle.days.specs.DayNumbers.{is_leap, month_length, day_number, real_day, day_count, year_of};

use crate::table::{Table, first_of};

pub fn is_leap(y: u32) -> bool
    ensures { result ≡ is_leap y }
{
    (y % 4 == 0) & ((y % 100 != 0) | (y % 400 == 0))
}

pub fn month_length(y: u32, m: u32) -> u32
    ensures { result ≡ month_length y m }
{
    if m == 2 {
        if is_leap(y) {
            return 29;
        }
        return 28;
    }
    if 12 < m {
        return 0;
    }
    let lengths = [0u32, 31, 28, 31, 30, 31, 30, 31, 31, 30, 31, 30, 31];
    lengths[m as usize]
}

pub fn real_day(y: u32, m: u32, d: u32) -> bool
    ensures { result ≡ real_day y m d }
{
    let last = month_length(y, m);
    ((1900 <= y) & (y <= 2099)) & (((1 <= m) & (m <= 12)) & ((1 <= d) & (d <= last)))
}

pub fn day_number(t: &Table, y: u32, m: u32, d: u32) -> u32
    requires { real_day y m d ≡ true }
    ensures { (result ≡ day_number y m d) × (result < day_count) }
{
    let month = (12 * (y - 1900) + (m - 1)) as usize;
    first_of(t, month) + (d - 1)
}

// A year has 365 days or more, so the search goes down from there: it takes a step or two.
pub fn year_of(t: &Table, day: u32) -> u32
    requires { day < day_count }
    ensures { result ≡ year_of day }
{
    for k in (0..(day / 365).min(199)).rev() {
        if first_of(t, (12 * (k + 1)) as usize) <= day {
            return 1901 + k;
        }
    }
    1900
}
