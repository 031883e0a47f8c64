// Bytes, runs of them, and parts of the input.
ghost use Rattle.std.specs.Prelude.{◌≡◌, ℕ, Bool, ◌+◌, ◌≤◌, length, take, drop, get_or};
ghost use Rattle.laws.specs.Lists.{all, same};
ghost use Rattle.markup.specs.Bytes.{is_ws, is_name_start, is_name, in_file, in_value, is_text, is_word, IsTest, run_length};
ghost use Rattle.markup.specs.View.{part};

pub fn is_ws(b: u8) -> bool
    ensures { result ≡ is_ws b }
{
    (b == 32) | ((b == 9) | ((b == 13) | (b == 10)))
}

pub fn is_name_start(b: u8) -> bool
    ensures { result ≡ is_name_start b }
{
    ((b'A' <= b) & (b <= b'Z')) | (((b'a' <= b) & (b <= b'z')) | (b == b'_'))
}

// Small letters, of which names have most, are told first.
pub fn is_name(b: u8) -> bool
    ensures { result ≡ is_name b }
{
    if (b'a' <= b) & (b <= b'z') {
        return true;
    }
    is_name_start(b) | (((b'0' <= b) & (b <= b'9')) | ((b == b'-') | ((b == b'.') | (b == b':'))))
}

pub fn in_file(b: u8) -> bool
    ensures { result ≡ in_file b }
{
    (((b == 9) | ((b == 10) | (b == 13))) | ((32 <= b) & (b <= 126))) & (b != b'&')
}

// One pass without an early exit, so that it is vectorised.
pub fn all_in_file(s: &[u8]) -> bool
    ensures { result ≡ all in_file s.now }
{
    s.iter().fold(true, |ok, b| ok & in_file(*b))
}

pub fn is_word(b: u8) -> bool
    ensures { result ≡ is_word b }
{
    (32 < b) & (b != b'=')
}

pub fn is_text(b: u8) -> bool
    ensures { result ≡ is_text b }
{
    b != b'<'
}

pub fn in_value(quote: u8, b: u8) -> bool
    ensures { result ≡ in_value quote b }
{
    (b != quote) & (b != b'<')
}

// What stands from a place on, which is nothing past the end.
fn rest(s: &[u8], from: usize) -> &[u8]
    ensures { result.now ≡ drop from s.now }
{
    s.get(from..).unwrap_or(&[])
}

// The place after the bytes that pass a test. No `position` and no `for`: most runs are short, and a file then takes 6 to 14 instructions more in 100.
#[tactic(auto, using(crate::proofs::AtBytes::run_yes, crate::proofs::AtBytes::run_no, crate::proofs::AtBytes::run_end))]
pub fn run_end<P: Fn(u8) -> bool>(s: &[u8], from: usize, passes: P) -> usize
    requires { P.IsAlwaysCallable passes }
    ensures onward { from ≤ result }
    ensures ends { (p : ℕ → Bool) → IsTest (P.post passes) p → result ≡ from + run_length p (drop from s.now) }
{
    let mut at = from;
    while at < s.len() && passes(s[at]) {
        at += 1;
    }
    at
}

// The byte at a place, and 0 past the end.
pub fn peek(s: &[u8], at: usize) -> u8
    ensures { result ≡ get_or s.now at 0 }
{
    s.get(at).copied().unwrap_or(0)
}

// The bytes from one place up to another, as far as they are there.
pub fn part(s: &[u8], start: usize, end: usize) -> &[u8]
    ensures { result.now ≡ part s.now start end }
{
    s.get(start..end.min(s.len())).unwrap_or(&[])
}

pub fn same(x: &[u8], y: &[u8]) -> bool
    ensures { result ≡ same x.now y.now }
{
    x == y
}

// The bytes from a place on begin with those of x.
pub fn begins(s: &[u8], at: usize, x: &[u8]) -> bool
    ensures { result ≡ same x.now (take (length x.now) (drop at s.now)) }
{
    rest(s, at).starts_with(x)
}
