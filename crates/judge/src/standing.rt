// The rows of one case, found by the first bits behind the case's key.
ghost use Rattle.std.specs.Prelude.{◌≡◌, cond, not, ◌+◌, ◌≤◌, ◌<◌, ◌^◌, eqb, length};
ghost use Rattle.laws.specs.Lists.{any};
ghost use Rattle.register.specs.Layout.{row_at};
ghost use Rattle.home_care.specs.Anomalies.{share_day};
ghost use Rattle.home_care.specs.EventRows.{event_at, Climbs};
ghost use Rattle.home_care.specs.Row.{event_bits, kind_of, siad};
ghost use Rattle.judge.specs.ByNumber.{clash, key_among};
ghost use Rattle.judge.specs.CaseRows.{standing_in, Outside};

use crate::Clash;
use crate::case_rows::CaseRows;
use codes::code_lists::{CONCLUSION, SUSPENSION};
use home_care::event_bits::{date_of, end_of, event_of, kind_of, same_key};
use home_care::event_rows::place_event;
use home_care::layout::{CASE_KEY, DATED_BITS, DAY_BITS, KIND_BITS, ROW};
use register::row::row_at;
use register::search::{Span, place_by};

// The event in row i.
pub fn event_at(reg: &[u8], i: usize) -> u64
    requires { row_at siad (i + 1) ≤ length reg.now }
    ensures { (result ≡ event_at reg.now i) × (result < 2 ^ event_bits) }
{
    event_of(row_at(reg, ROW, i))
}

// Whether an event with the key of e stands in the case's rows.
fn has_event(rows: CaseRows, e: u64) -> bool
    ensures { Climbs rows.entry.reg.now rows.entry.lo rows.entry.hi → result ≡ key_among (standing_in rows.entry.reg.now rows.entry.lo rows.entry.hi) e }
{
    let i = place_event(rows.reg, rows.lo, rows.hi, e);
    if rows.hi <= i {
        return false;
    }
    same_key(event_at(rows.reg, i), e)
}

// Whether one of the record's events stands there, or, with `standing` false, does not.
pub fn some_event(rows: CaseRows, evs: &[u64], standing: bool) -> bool
    ensures { let there = standing_in rows.entry.reg.now rows.entry.lo rows.entry.hi in
        Climbs rows.entry.reg.now rows.entry.lo rows.entry.hi → result ≡ cond standing (any (key_among there) evs.now) (any (λ e. not (key_among there e)) evs.now) }
{
    evs.iter().any(|e| has_event(rows, *e) == standing)
}

// The case's rows with an event of that kind.
fn of_kind(rows: CaseRows, kind: u64) -> Span
    requires { kind < 4 }
    ensures { Outside (λ b. eqb (kind_of b) kind) rows.entry.reg.now rows.entry.lo rows.entry.hi result.lo result.hi }
{
    let lo = place_by(rows.reg, ROW, rows.lo, rows.hi, CASE_KEY, KIND_BITS, kind);
    let hi = place_by(rows.reg, ROW, lo, rows.hi, CASE_KEY, KIND_BITS, kind + 1);
    Span { lo, hi }
}

// The case's rows that can share a day with a: those that begin in its days, and the one before them. Suspensions that stand
// share no day, so that of those which begin earlier only the last can reach into a's days.
fn sharing(rows: CaseRows, a: u64) -> Span
    ensures { Outside (share_day a) rows.entry.reg.now rows.entry.lo rows.entry.hi result.lo result.hi }
{
    let first = SUSPENSION << DAY_BITS;
    let begin = first + date_of(a);
    let past = first + end_of(a) + 1;
    let from = place_by(rows.reg, ROW, rows.lo, rows.hi, CASE_KEY, DATED_BITS, begin);
    let hi = place_by(rows.reg, ROW, from, rows.hi, CASE_KEY, DATED_BITS, past);
    let lo = if rows.lo < from { from - 1 } else { rows.lo };
    Span { lo, hi }
}

// The case's rows that can clash with a at all: suspensions about its days, conclusions, all or none. (22 is asked of a record's own events, with no rows.)
pub fn rivals(number: u64, rows: CaseRows, a: u64) -> Span
    ensures { Outside (clash number a) rows.entry.reg.now rows.entry.lo rows.entry.hi result.lo result.hi }
{
    let all = Span {
        lo: rows.lo,
        hi: rows.hi,
    };
    let none = Span {
        lo: rows.lo,
        hi: rows.lo,
    };
    let kind = kind_of(a);
    match Clash::from(number) {
        Clash::OneKey => all,
        Clash::SharedDay if kind == SUSPENSION => sharing(rows, a),
        Clash::TwoConclusions if kind == CONCLUSION => of_kind(rows, CONCLUSION),
        Clash::SharedDay | Clash::TwoConclusions => none,
        Clash::AfterConclusion if kind == CONCLUSION => all,
        Clash::AfterConclusion => of_kind(rows, CONCLUSION),
    }
}
