// Text put into a lent buffer, from a place on: bytes as they are, and numbers in decimal. Where the buffer ends nothing more is written. Each function answers
// the place after what it put, so that pieces are put one after the other; what they leave together is one law (`put_on`, proofs/PutLaws.antt).
// Buffer and place go singly: the place is the answer, and a struct that lends the buffer would be taken apart and made again at each piece.
#![tactic(auto)]

ghost use Rattle.std.specs.Prelude.{◌≡◌, ◌<◌, length, drop};
ghost use Rattle.text.specs.Put.{Put};
ghost use Rattle.text.specs.Spelled.{spelled, most_digits, digit as digit_of};

// Puts a text as it is.
pub fn put_text(out: &mut [u8], at: usize, text: &[u8]) -> usize
    ensures { Put at text.now out.old out.new result }
{
    if out.len() <= at {
        return at;
    }
    let fits = text.len().min(out.len() - at);
    out[at..at + fits].copy_from_slice(&text[..fits]);
    at + fits
}

fn digit(n: u64) -> u8
    requires { n < 10 }
    ensures { result ≡ digit_of n }
{
    b'0' + n as u8
}

// A number's digits, made from the last one on, at the end of 20 bytes; where they begin. No `for` over the bytes: the number decides how many there are.
fn spell(n: u64, text: &mut [u8]) -> usize
    requires { length text.old ≡ most_digits }
    ensures { (result < most_digits) × (drop result text.new ≡ spelled n) }
{
    let mut at = 19;
    let mut rest = n;
    while 10 <= rest {
        text[at] = digit(rest % 10);
        at -= 1;
        rest /= 10;
    }
    text[at] = digit(rest);
    at
}

// Puts a number's decimal digits.
pub fn put_decimal(out: &mut [u8], at: usize, n: u64) -> usize
    ensures { Put at (spelled n) out.old out.new result }
{
    let mut text = [0u8; 20];
    let from = spell(n, &mut text);
    put_text(out, at, &text[from..])
}
