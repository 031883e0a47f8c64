// What a Track 1 record shows by itself: 11, 12 and 13.
ghost use Rattle.std.specs.Prelude.{◌≡◌, ◌<◌};
ghost use Rattle.days.specs.DayNumbers.{day_count};
ghost use Rattle.home_care.specs.Row.{Key, Case};
ghost use Rattle.home_care.specs.Anomalies.{t11, t12, is_italy, zero_kept};

use days::table::Table;
use home_care::layout::FIRST_BIRTH;
use markup::bytes::same;

// 11: the birth year against the year of taking in.
pub fn bad_birth(t: &Table, taken: u64, birth: u64) -> bool
    requires { taken < day_count }
    ensures { (k : Key) (c : Case) → taken ≡ k.taken → birth ≡ c.birth → result ≡ t11 k c }
{
    let year = days::calendar::year_of(t, taken as u32);
    (birth < FIRST_BIRTH) | ((year as u64) < birth)
}

fn is_italy(t: &[u8]) -> bool
    ensures { result ≡ is_italy t.now }
{
    match t {
        [a, b, ..] => a.eq_ignore_ascii_case(&b'I') & b.eq_ignore_ascii_case(&b'T'),
        _ => false,
    }
}

// The residence's texts.
#[derive(Clone, Copy)]
pub struct Residence<'a> {
    pub region: &'a [u8],
    pub asl: &'a [u8],
    pub comune: &'a [u8],
    pub stato: &'a [u8],
}

// 12: the residence abroad and the StatoEstero say the same.
pub fn bad_residence(r: Residence) -> bool
    ensures { result ≡ t12 (record { region = r.entry.region.now; asl = r.entry.asl.now; comune = r.entry.comune.now; stato = r.entry.stato.now }) }
{
    let abroad = same(r.region, b"999") & (same(r.comune, b"999999") & same(r.asl, b"999"));
    let present = !r.stato.is_empty();
    (present & !abroad) | ((!present & abroad) | is_italy(r.stato))
}

// 13: the prevalente, as it is kept, is 000.
pub fn zero_kept(p: &[u8]) -> bool
    ensures { result ≡ zero_kept p.now }
{
    same(p, b"000\0\0")
}
