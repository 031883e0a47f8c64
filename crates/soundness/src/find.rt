// Finding a case by the texts of its key (RULES.md, C9 to C13).
ghost use Rattle.std.specs.Prelude.{◌≡◌, true, cond, ◌&&◌, ◌*◌, ◌≤◌, eqb, ltb, length, None, Some};
ghost use Rattle.laws.specs.Decimal.{decimal, is_digit};
ghost use Rattle.laws.specs.Lists.{all};
ghost use Rattle.model.specs.Map.{has, keep};
ghost use Rattle.register.specs.Layout.{row_at, cases_held};
ghost use Rattle.register.specs.State.{state_of};
ghost use Rattle.register.specs.Search.{probe_key};
ghost use Rattle.register.specs.Sound.{ascending};
ghost use Rattle.home_care.specs.Row.{key_bits, key_number, home_care};
ghost use Rattle.home_care.specs.Fits.{RowWidth};
ghost use Rattle.soundness.specs.Finding.{texts_allowed, key_of_texts, found};
ghost use Rattle.soundness.specs.View.{ProbeTold, number_of, view_find};

use crate::sound::sound;
use codes::digits::read_digits;
use days::dates::read_date;
use days::table::Table;
use home_care::layout::{CASE_KEY, ROW};
use register::counts::count;
use register::search::{place, stands};

// The texts that name a case.
#[derive(Clone, Copy)]
pub struct CaseTexts<'a> {
    pub region: &'a [u8],
    pub asl: &'a [u8],
    pub date: &'a [u8],
    pub id: &'a [u8],
}

// Why no place is answered: the register is unsound, or no such case stands in it.
#[derive(Clone, Copy)]
pub enum Missing {
    Unsound,
    Nowhere,
}

impl From<Missing> for u64 {
    ghost from_gives = { λ missing n. n ≡ number_of missing };

    fn from(missing: Missing) -> u64 {
        match missing {
            Missing::Unsound => 3,
            Missing::Nowhere => 30,
        }
    }
}

// The number of a text of three digits.
fn region_of(s: &[u8]) -> Option<u64>
    ensures { result ≡ cond (eqb (length s.now) 3 && all is_digit s.now) (Some (decimal s.now)) None }
{
    if s.len() != 3 {
        return None;
    }
    let read = read_digits(s, 9999);
    if read.good { Some(read.number) } else { None }
}

// The case with the probe's key, where rows have w bytes.
fn find_key(reg: &[u8], w: usize, probe: &[u8]) -> Result<usize, Missing>
    requires { RowWidth w × (4 ≤ length reg.now) × (row_at (home_care w) (cases_held reg.now) ≤ length reg.now) × (length probe.now ≡ w) }
    ensures { ascending (state_of (home_care w) reg.now).cases ≡ true
        → view_find result ≡ cond (has (probe_key w key_bits probe.now) (state_of (home_care w) reg.now).cases)
        (record {
          answer = 0;
          place = row_at (home_care w) (length (keep (λ k. ltb k (probe_key w key_bits probe.now)) (state_of (home_care w) reg.now).cases));
        })
        (record { answer = 30; place = 0 }) }
{
    let cases = count(reg, 0);
    let i = place(reg, w, 0, cases, probe, CASE_KEY, 0);
    if !stands(reg, w, i, cases, probe, CASE_KEY) {
        return Err(Missing::Nowhere);
    }
    Ok(4 + w * i)
}

// The probe row of the texts' key over a lent buffer, where they are allowed. A bool beside the buffer, since it may have any length that holds a key;
// `probe_of` is the same for a row of its own.
pub fn put_probe(t: &Table, out: &mut [u8], texts: &CaseTexts) -> bool
    requires { key_bits ≤ 8 * length out.old }
    ensures { (result ≡ texts_allowed texts.now.region.now texts.now.asl.now texts.now.date.now texts.now.id.now)
        × (result ≡ true → probe_key (length out.old) key_bits out.new ≡ key_number (key_of_texts texts.now.region.now texts.now.asl.now texts.now.date.now texts.now.id.now)) }
{
    if (texts.asl.len() != 3) | ((texts.date.len() != 10) | (texts.id.len() != 88)) {
        return false;
    }
    let Some(region) = region_of(texts.region) else {
        return false;
    };
    if !(codes::code_lists::is_region(region)
        & (codes::characters::all_alnum(texts.asl) & codes::characters::all_id(texts.id)))
    {
        return false;
    }
    let Some(taken) = read_date(t, texts.date, 0) else {
        return false;
    };
    home_care::pack::pack_key(out, region, texts.asl, taken.day as u64, texts.id);
    true
}

// The probe row, of N bytes, of the texts' key, where they are allowed.
pub fn probe_of<const N: usize>(t: &Table, texts: &CaseTexts) -> Option<[u8; N]>
    requires { key_bits ≤ 8 * N }
    ensures { ProbeTold N result texts.now.region.now texts.now.asl.now texts.now.date.now texts.now.id.now }
{
    let mut probe = [0u8; N];
    if !put_probe(t, &mut probe, texts) {
        return None;
    }
    Some(probe)
}

// A case by its texts: unsound registers first, then texts that are not allowed or a key that does not stand.
pub fn find(t: &Table, reg: &[u8], texts: &CaseTexts) -> Result<usize, Missing>
    ensures { view_find result ≡ found reg.now texts.now.region.now texts.now.asl.now texts.now.date.now texts.now.id.now }
{
    if !sound(t, reg) {
        return Err(Missing::Unsound);
    }
    let probe: [u8; ROW] = probe_of(t, texts).ok_or(Missing::Nowhere)?;
    find_key(reg, ROW, &probe)
}
