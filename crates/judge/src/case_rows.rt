// A record's case in a sound register. That its counts end within it stays a clause on `reg`: the register is written between two records, so a struct that held
// it would be made anew for each, and docs/ names the functions that take any such bytes.
ghost use Rattle.std.specs.Prelude.{◌≡◌, true, ◌+◌, ◌≤◌, ◌<◌, length};
ghost use Rattle.model.specs.Map.{has};
ghost use Rattle.register.specs.Layout.{row_at, cases_held, events_held};
ghost use Rattle.register.specs.State.{state_of};
ghost use Rattle.register.specs.Search.{probe_key};
ghost use Rattle.home_care.specs.Row.{row_bytes, key_bits, siad};
ghost use Rattle.soundness.specs.Sound.{is_sound};
ghost use Rattle.judge.specs.CaseRows.{OfCase};
ghost use Rattle.register.specs.View.{most_counted};

use home_care::layout::{CASE_KEY, ROW};
use register::counts::count;
use register::search::{Span, case_range, place, stands};

// The rows of a case in the register: those from lo up to hi.
#[derive(Clone, Copy)]
pub struct CaseRows<'a> {
    pub reg: &'a [u8],
    pub lo: usize,
    pub hi: usize,
    ghost mid: { lo ≤ hi },
    ghost end: { row_at siad hi ≤ length reg.now },
}

// The rows standing.
pub fn rows_held(reg: &[u8]) -> usize
    requires { 4 ≤ length reg.now }
    ensures { (result ≡ cases_held reg.now + events_held reg.now) × (result < most_counted) }
{
    count(reg, 0) + count(reg, 2)
}

// Whether the probe's case stands.
pub fn case_stands(reg: &[u8], probe: &[u8]) -> bool
    requires { (4 ≤ length reg.now) × (row_at siad (cases_held reg.now + events_held reg.now) ≤ length reg.now) × (length probe.now ≡ row_bytes) }
    ensures { is_sound reg.now ≡ true → result ≡ has (probe_key row_bytes key_bits probe.now) (state_of siad reg.now).cases }
{
    let cases = count(reg, 0);
    let i = place(reg, ROW, 0, cases, probe, CASE_KEY, 0);
    stands(reg, ROW, i, cases, probe, CASE_KEY)
}

// The rows of its events.
pub fn case_events(reg: &[u8], probe: &[u8]) -> Span
    requires { (4 ≤ length reg.now) × (row_at siad (cases_held reg.now + events_held reg.now) ≤ length reg.now) × (length probe.now ≡ row_bytes) }
    ensures { OfCase (probe_key row_bytes key_bits probe.now) reg.now result.lo result.hi }
{
    let cases = count(reg, 0);
    let rows = rows_held(reg);
    case_range(reg, ROW, cases, rows, probe, CASE_KEY)
}
