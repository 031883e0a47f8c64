// What a record's events show by themselves: 10, 23 and 25 (RULES.md, 7 Anomalies of a record).
ghost use Rattle.std.specs.Prelude.{◌≡◌};
ghost use Rattle.home_care.specs.Anomalies.{out_of_quarter, day_for, t10, t23, t25};
ghost use Rattle.judge.specs.View.{context_in};

use crate::Limits;
use codes::code_lists::SUSPENSION;
use home_care::event_bits::{date_of, end_of, kind_of};
use home_care::layout::NEVER;

// The day that 10 asks for: a suspension's end, or its begin where that is missing.
pub fn day_for(e: u64) -> u64
    ensures { result ≡ day_for e }
{
    let end = end_of(e);
    if (kind_of(e) == SUSPENSION) & (end != NEVER) {
        return end;
    }
    date_of(e)
}

pub fn out_of_quarter(l: Limits, day: u64) -> bool
    ensures { result ≡ out_of_quarter (context_in l) day }
{
    !((l.first <= day) & (day <= l.last))
}

// 10 of one of the record's events.
pub fn any_out_of_quarter(l: Limits, evs: &[u64]) -> bool
    ensures { result ≡ t10 (context_in l) evs.now }
{
    evs.iter().any(|e| out_of_quarter(l, day_for(*e)))
}

// 23 of one of them.
pub fn any_ends_first(evs: &[u64]) -> bool
    ensures { result ≡ t23 evs.now }
{
    evs.iter().any(|e| (kind_of(*e) == SUSPENSION) & (end_of(*e) < date_of(*e)))
}

// 25 of one of them.
pub fn any_before(taken: u64, evs: &[u64]) -> bool
    ensures { result ≡ t25 taken evs.now }
{
    evs.iter().any(|e| date_of(*e) < taken)
}
