// Code lists.
ghost use Rattle.std.specs.Prelude.{◌≡◌, map};
ghost use Rattle.codes.specs.CodesAndCharacters.{only, in_ranges, regions, codes_of};

// An event's kind. A number and no enum: it passes through the rows' bits as one, and `is_code` answers for every number.
pub const REVALUATION: u64 = 0;

pub const SERVICE: u64 = 1;

pub const SUSPENSION: u64 = 2;

pub const CONCLUSION: u64 = 3;

// Whether a number is in a list.
fn one_of(list: &[u64], n: u64) -> bool
    ensures { result ≡ in_ranges (map only list.now) n }
{
    list.contains(&n)
}

pub fn is_region(n: u64) -> bool
    ensures { result ≡ in_ranges regions n }
{
    let list = [
        10u64, 20, 30, 41, 42, 50, 60, 70, 80, 90, 100, 110, 120, 121, 130, 140, 150, 160, 170,
        180, 190, 200,
    ];
    one_of(&list, n)
}

// A code of the list of an event's kind; a number that is no kind has none.
#[tactic(auto, unfolding(laws::specs::Lists::any))]
pub fn is_code(kind: u64, code: u64) -> bool
    ensures { result ≡ in_ranges (codes_of kind) code }
{
    match kind {
        REVALUATION => matches!(code, 1..=2),
        SERVICE => matches!(code, 1..=13 | 99),
        SUSPENSION => matches!(code, 1..=3 | 9),
        CONCLUSION => matches!(code, 1..=12 | 97..=99),
        _ => false,
    }
}
