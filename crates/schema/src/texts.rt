// The texts of leaves and attributes.
ghost use Rattle.std.specs.Prelude.{◌≡◌, List, ◌&&◌, ℕ, ◌+◌, ◌*◌, ◌<◌, eqb, get_or};
ghost use Rattle.laws.specs.Decimal.{decimal};
ghost use Rattle.laws.specs.Lists.{all};
ghost use Rattle.days.specs.Dates.{is_date};
ghost use Rattle.codes.specs.CodesAndCharacters.{in_ranges};
ghost use Rattle.schema.specs.Texts.{digits_in, unpadded, signed_in, fits_text};
ghost use Rattle.schema.specs.Table.{ranges_at, texts_of};
ghost use Rattle.schema.specs.View.{Near, SaysNumber};

use crate::table::{Kind, LIMIT, NUMBER, Rows, Tables};
use codes::digits::read_digits;
use days::dates::date_parts;

// The number that digits write; one above 65,535 is that large and no more.
fn number_of(text: &[u8]) -> Option<usize>
    ensures { SaysNumber text.now result }
{
    let read = read_digits(text, 65536);
    if read.good & (text.len() > 0) {
        Some(read.number as usize)
    } else {
        None
    }
}

// No 0 stands before another digit.
fn is_unpadded(text: &[u8]) -> bool
    ensures { result ≡ unpadded text.now }
{
    !matches!(text, [b'0', _, ..])
}

fn is_date(text: &[u8]) -> bool
    ensures { result ≡ is_date text.now }
{
    text.len() == 10 && date_parts(text, 0).is_some()
}

// The numbers from one to another.
#[derive(Clone, Copy)]
struct Range {
    from: u16,
    to: u16,
}

impl Tables<'_> {
    // A range: its first number and its last.
    fn range(&self, i: usize) -> Range
        requires { i < 131072 }
        ensures { (result.from ≡ get_or self.now.ranges.now (2 * i) 0) × (result.to ≡ get_or self.now.ranges.now (2 * i + 1) 0) }
    {
        if i < self.ranges.len() / 2 {
            return Range {
                from: self.ranges[2 * i],
                to: self.ranges[2 * i + 1],
            };
        }
        Range {
            from: self.number_at(2 * i),
            to: self.number_at(2 * i + 1),
        }
    }

    // A number in one of the ranges; so is every number that is as large as no range reaches.
    fn in_ranges(&self, rows: Rows, x: usize) -> bool
        ensures { (t p : List ℕ) (y : ℕ) → Near x y → result ≡ in_ranges (ranges_at t p self.now.ranges.now rows.first rows.n) y }
    {
        for k in 0..rows.n {
            let range = self.range(rows.first + k);
            if (range.from as usize <= x) & (x <= range.to as usize) {
                return true;
            }
        }
        false
    }

    fn all_in_ranges(&self, rows: Rows, text: &[u8]) -> bool
        ensures { (t p : List ℕ) → result ≡ all (in_ranges (ranges_at t p self.now.ranges.now rows.first rows.n)) text.now }
    {
        text.iter().all(|b| self.in_ranges(rows, *b as usize))
    }

    fn digits_in(&self, rows: Rows, text: &[u8]) -> bool
        ensures { (t p : List ℕ) → result ≡ digits_in (ranges_at t p self.now.ranges.now rows.first rows.n) text.now }
    {
        match number_of(text) {
            Some(x) => self.in_ranges(rows, x),
            None => false,
        }
    }

    // After `-` only 0 may stand.
    fn zero_in(&self, rows: Rows, text: &[u8]) -> bool
        ensures { (t p : List ℕ) → result ≡ digits_in (ranges_at t p self.now.ranges.now rows.first rows.n) text.now && eqb (decimal text.now) 0 }
    {
        match number_of(text) {
            Some(0) => self.in_ranges(rows, 0),
            _ => false,
        }
    }

    fn signed_in(&self, rows: Rows, text: &[u8]) -> bool
        ensures { (t p : List ℕ) → result ≡ signed_in (ranges_at t p self.now.ranges.now rows.first rows.n) text.now }
    {
        match text {
            [b'+', rest @ ..] => self.digits_in(rows, rest),
            [b'-', rest @ ..] => self.zero_in(rows, rest),
            _ => self.digits_in(rows, text),
        }
    }

    // A text of a row of the table.
    pub fn fits_text(&self, row: usize, text: &[u8]) -> bool
        ensures { (pool : List ℕ) → result ≡ fits_text (texts_of self.now.table.now pool self.now.ranges.now row) text.now }
    {
        match self.kind(row) {
            Kind::Date => is_date(text),
            Kind::Chars => {
                let least = self.cell(row, NUMBER) as usize;
                let most = self.cell(row, LIMIT) as usize;
                (least <= text.len()) & (text.len() <= most)
                    && self.all_in_ranges(self.children(row), text)
            }
            Kind::Signed => self.signed_in(self.children(row), text),
            Kind::Plain => is_unpadded(text) && self.digits_in(self.children(row), text),
            _ => {
                let long = self.cell(row, NUMBER) as usize;
                text.len() == long && self.digits_in(self.children(row), text)
            }
        }
    }
}
