// Sets of characters. A text is tested with no early way out.
ghost use Rattle.std.specs.Prelude.{◌≡◌};
ghost use Rattle.laws.specs.Lists.{all};
ghost use Rattle.codes.specs.CodesAndCharacters.{in_ranges, alnums, id_chars};

#[tactic(auto, unfolding(laws::specs::Lists::any))]
pub fn is_alnum(b: u8) -> bool
    ensures { result ≡ in_ranges alnums b }
{
    b.is_ascii_alphanumeric()
}

// From 33 to 126 other than `& < > " '`: the same set as the ranges, and cheaper to test.
pub fn id_char(b: u8) -> bool
    ensures { result ≡ in_ranges id_chars b }
{
    ((33 <= b) & (b <= 126))
        & ((b != b'&') & ((b != b'<') & ((b != b'>') & ((b != b'"') & (b != b'\'')))))
}

pub fn all_alnum(s: &[u8]) -> bool
    ensures { result ≡ all (in_ranges alnums) s.now }
{
    s.iter().fold(true, |good, b| good & is_alnum(*b))
}

pub fn all_id(s: &[u8]) -> bool
    ensures { result ≡ all (in_ranges id_chars) s.now }
{
    s.iter().fold(true, |good, b| good & id_char(*b))
}
