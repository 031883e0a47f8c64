// Every text AAAA-MM-GG of the years 1890 to 2109, months 00 to 13 and days 00 to 32, read. A line for each year: how many of its texts are dates, the
// sum of their day numbers, the sum of those days' years, and the quarters 0 to 5, each with its first and last day or a dash.
// What it must write was made by another tool (docs/CALENDAR.md).
#![tactic(auto)]

use days::dates::{Date, read_date};
use days::quarters::Quarter;
use days::table::Table;
use std::io;

#[derive(Clone, Copy)]
struct Sum {
    dates: u64,
    days: u64,
    years: u64,
}

fn digit(n: u32) -> u8 {
    (n % 10 + 48) as u8
}

fn text(y: u32, m: u32, d: u32) -> [u8; 10] {
    [
        digit(y / 1000),
        digit(y / 100),
        digit(y / 10),
        digit(y),
        b'-',
        digit(m / 10),
        digit(m),
        b'-',
        digit(d / 10),
        digit(d),
    ]
}

fn with_text(t: &Table, sum: Sum, s: [u8; 10]) -> Sum {
    let Some(Date { day, next: _ }) = read_date(t, &s, 0) else {
        return sum;
    };
    Sum {
        dates: sum.dates.wrapping_add(1),
        days: sum.days.wrapping_add(day as u64),
        years: sum
            .years
            .wrapping_add(days::calendar::year_of(t, day) as u64),
    }
}

fn of_year(t: &Table, y: u32) -> Sum {
    let mut sum = Sum {
        dates: 0,
        days: 0,
        years: 0,
    };
    for i in 0..462u32 {
        sum = with_text(t, sum, text(y, i / 33, i % 33));
    }
    sum
}

fn put(rt: &impl Print, n: u64) -> io::Result<()> {
    print!(rt; " {n}")
}

fn quarter(rt: &impl Print, y: u32, q: u64) -> io::Result<()> {
    match days::quarters::quarter_days(y as u64, q) {
        Some(Quarter { first, last }) => {
            put(rt, first as u64)?;
            put(rt, last as u64)
        }
        None => print!(rt; " -"),
    }
}

fn line(rt: &impl Print, t: &Table, y: u32) -> io::Result<()> {
    print!(rt; "{y}")?;
    let sum = of_year(t, y);
    put(rt, sum.dates)?;
    put(rt, sum.days)?;
    put(rt, sum.years)?;
    for q in 0..6u64 {
        quarter(rt, y, q)?;
    }
    println!(rt)
}

fn main(rt: HostRuntime) -> io::Result<()> {
    let t = days::table::make();
    for y in 1890..2110u32 {
        line(&rt, &t, y)?;
    }
    Ok(())
}
