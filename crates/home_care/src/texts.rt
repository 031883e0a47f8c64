// Tests of whole texts, with no early way out.
ghost use Rattle.std.specs.Prelude.{◌≡◌, ◌&&◌, ◌≤◌, eqb, length, take, drop};
ghost use Rattle.laws.specs.Lists.{all};
ghost use Rattle.markup.specs.Bytes.{in_file, is_text};
ghost use Rattle.home_care.specs.Allowed.{prevalente_allowed};

// A byte that a text may hold.
fn is_text(b: u8) -> bool
    ensures { result ≡ in_file b && is_text b }
{
    markup::bytes::in_file(b) & markup::bytes::is_text(b)
}

pub fn all_text(s: &[u8]) -> bool
    ensures { result ≡ all (λ b. in_file b && is_text b) s.now }
{
    s.iter().fold(true, |good, b| good & is_text(*b))
}

pub fn all_zero(s: &[u8]) -> bool
    ensures { result ≡ all (λ b. eqb b 0) s.now }
{
    s.iter().fold(true, |good, b| good & (*b == 0))
}

// n characters, then zeros.
fn text_of(p: &[u8], n: usize) -> bool
    requires { n ≤ length p.now }
    ensures { result ≡ all (λ b. in_file b && is_text b) (take n p.now) && all (λ b. eqb b 0) (drop n p.now) }
{
    let text = all_text(&p[..n]);
    let zeros = all_zero(&p[n..]);
    text & zeros
}

// 3 to 5 characters, then zeros; not 000.
pub fn prevalente_allowed(p: &[u8; 5]) -> bool
    ensures { result ≡ prevalente_allowed p.now }
{
    let three = text_of(p, 3);
    let four = text_of(p, 4);
    let five = text_of(p, 5);
    let none = *p == *b"000\0\0";
    (three | (four | five)) & !none
}
