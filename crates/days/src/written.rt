// A day number written as a date.
ghost use Rattle.std.specs.Prelude.{◌≡◌, ◌+◌, ◌/◌, ◌%◌, ◌*◌, ◌<◌, ◌≤◌, ◌^◌};
ghost use Rattle.text.specs.Put.{Put};
ghost use Rattle.text.specs.Spelled.{digit};
ghost use Rattle.days.specs.WrittenDates.{month_in, date_text};

use crate::table::{Table, first_of};
use text::put_text;

// The month of a day, counted from January 1900: the last that begins on or before it, by binary search.
fn month_in(t: &Table, day: u64) -> usize
    ensures { (result ≡ month_in day) × (result < 2400) }
{
    t.firsts.partition_point(|first| *first as u64 <= day) - 1
}

// One digit of a number, by its unit.
fn digit_of(n: u64, unit: u64) -> u8
    requires { 0 < unit }
    ensures { result ≡ digit (n / unit % 10) }
{
    b'0' + (n / unit % 10) as u8
}

// Puts a day as AAAA-MM-GG.
pub fn put_date(t: &Table, out: &mut [u8], at: usize, day: u64) -> usize
    requires { day < 2 ^ 17 }
    ensures { Put at (date_text day) out.old out.new result }
{
    let month = month_in(t, day);
    let y = 1900 + (month / 12) as u64;
    let m = (month % 12) as u64 + 1;
    let d = day - first_of(t, month) as u64 + 1;
    let text = [
        digit_of(y, 1000),
        digit_of(y, 100),
        digit_of(y, 10),
        digit_of(y, 1),
        b'-',
        digit_of(m, 10),
        digit_of(m, 1),
        b'-',
        digit_of(d, 10),
        digit_of(d, 1),
    ];
    put_text(out, at, &text)
}
