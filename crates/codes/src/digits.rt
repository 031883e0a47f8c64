// Decimal digits. A text is read with no early way out.
ghost use Rattle.std.specs.Prelude.{◌≡◌, ◌-◌, ◌<◌};
ghost use Rattle.laws.specs.Decimal.{is_digit, decimal};
ghost use Rattle.laws.specs.Lists.{all};
ghost use Rattle.codes.specs.Capped.{up_to};

// The number that a text writes, and whether each byte of it is a digit. No Option: `read_digits` tells the number where a byte is no digit, too.
#[derive(Clone, Copy)]
pub struct Digits {
    pub number: u64,
    pub good: bool,
}

pub fn is_digit(b: u8) -> bool
    ensures { result ≡ is_digit b }
{
    b.is_ascii_digit()
}

// What a byte counts: nothing below the digits.
fn worth(b: u8) -> u64
    ensures { (result ≡ b - 48) × (result < 256) }
{
    b.saturating_sub(b'0') as u64
}

// A text as digits; of a number above the most that is asked for, that.
pub fn read_digits(s: &[u8], most: u32) -> Digits
    ensures { (result.number ≡ up_to most (decimal s.now)) × (result.good ≡ all is_digit s.now) }
{
    let mut number: u64 = 0;
    let mut good = true;
    for b in s {
        number = (number * 10 + worth(*b)).min(most as u64);
        good &= is_digit(*b);
    }
    Digits { number, good }
}
