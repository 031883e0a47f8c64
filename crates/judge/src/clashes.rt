// Two events of a case that clash, one of them the record's.
ghost use Rattle.std.specs.Prelude.{◌≡◌, ◌≤◌, not, ◌&&◌, length};
ghost use Rattle.laws.specs.Lists.{some_pair};
ghost use Rattle.judge.specs.ByNumber.{clash, fresh, key_among};
ghost use Rattle.judge.specs.CaseRows.{standing_in, Settled};
ghost use Rattle.home_care.specs.Anomalies.{after_conclusion, share_day};

use crate::Clash;
use crate::case_rows::CaseRows;
use crate::standing::{event_at, rivals};
use checks::anomaly::Anomaly;
use codes::code_lists::CONCLUSION;
use home_care::event_bits::{date_of, end_of, kind_of, same_key, share_day};
use home_care::layout::NEVER;

// Whether e or its end is after c, a conclusion.
fn after_conclusion(c: u64, e: u64) -> bool
    ensures { result ≡ after_conclusion c e }
{
    // most events are none, and their dates need no look
    if kind_of(c) != CONCLUSION {
        return false;
    }
    let last = date_of(c);
    let end = end_of(e);
    (last < date_of(e)) | ((end != NEVER) & (last < end))
}

// What 22, 26, 27 and 28 ask of two events.
pub fn clash(number: u64, a: u64, b: u64) -> bool
    ensures { result ≡ clash number a b }
{
    match Clash::from(number) {
        Clash::OneKey => same_key(a, b),
        Clash::SharedDay => share_day(a, b),
        Clash::TwoConclusions => (kind_of(a) == CONCLUSION) & (kind_of(b) == CONCLUSION),
        Clash::AfterConclusion => after_conclusion(a, b) | after_conclusion(b, a),
    }
}

// Whether an event of the record has the key of b.
fn key_among(evs: &[u64], b: u64) -> bool
    ensures { result ≡ key_among evs.now b }
{
    evs.iter().any(|a| same_key(*a, b))
}

// Whether b, which stands, clashes with a and is not replaced.
pub fn clash_standing(number: u64, evs: &[u64], a: u64, b: u64) -> bool
    ensures { result ≡ clash number a b && not (key_among evs.now b) }
{
    if !clash(number, a, b) {
        return false;
    }
    !key_among(evs, b)
}

// Whether two of the record's events clash, or one of them and one that stands and is not replaced; left as soon as two do. Labelled loops and no chain: a form that
// was asked for (docs/DECISIONS.md, "Forms asked for").
pub fn clashes(number: u64, evs: &[u64], rows: CaseRows) -> bool
    ensures { Settled rows.entry.reg.now rows.entry.lo rows.entry.hi → result ≡ fresh (clash number) evs.now (standing_in rows.entry.reg.now rows.entry.lo rows.entry.hi) }
{
    let mut found = false;
    'search: for (i, a) in evs.iter().enumerate() {
        for b in &evs[i + 1..] {
            if clash(number, *a, *b) {
                found = true;
                break 'search;
            }
        }
        let span = rivals(number, rows, *a);
        for k in span.lo..span.hi {
            if clash_standing(number, evs, *a, event_at(rows.reg, k)) {
                found = true;
                break 'search;
            }
        }
    }
    found
}

// A22: two of the record's events have one key; with no rows, so that only its own are looked at.
pub fn one_key_twice(evs: &[u64], reg: &[u8]) -> bool
    requires { 4 ≤ length reg.now }
    ensures { result ≡ some_pair (clash 22) evs.now }
{
    let none = CaseRows { reg, lo: 0, hi: 0 };
    clashes(Anomaly::OneKey as u64, evs, none)
}

// A26; the search stops at the first pair that shares a day: the nested loops of `clashes` over the case's suspensions, those of the record and those that
// stand, left from inside by the label as soon as two share a day.
pub fn suspensions_share_a_day(evs: &[u64], rows: CaseRows) -> bool
    ensures { Settled rows.entry.reg.now rows.entry.lo rows.entry.hi → result ≡ fresh share_day evs.now (standing_in rows.entry.reg.now rows.entry.lo rows.entry.hi) }
{
    clashes(Anomaly::SharedDay as u64, evs, rows)
}
