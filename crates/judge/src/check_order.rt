// A record's answer: the first of its checks that holds, in the order of J2 and J3.
ghost use Rattle.std.specs.Prelude.{◌≡◌, true, false, List, ◌+◌, ◌≤◌, ◌<◌, length};
ghost use Rattle.days.specs.DayNumbers.{day_count};
ghost use Rattle.model.specs.Checks.{first};
ghost use Rattle.model.specs.Map.{has};
ghost use Rattle.model.specs.Transmission.{is_insert, is_cancel};
ghost use Rattle.register.specs.Layout.{row_at, cases_held, events_held};
ghost use Rattle.register.specs.State.{state_of};
ghost use Rattle.register.specs.Search.{probe_key};
ghost use Rattle.home_care.specs.Row.{row_bytes, key_bits, siad};
ghost use Rattle.home_care.specs.Record.{Head, Admission, Said, admission, events, type_of};
ghost use Rattle.soundness.specs.Sound.{is_sound};
ghost use Rattle.checks.specs.CheckOrder.{checks_of};
ghost use Rattle.checks.specs.Numbers.{answer_of};
ghost use Rattle.checks.specs.Readable.{Readable};
ghost use Rattle.judge.specs.Asked.{against_standing, answer_admission};
ghost use Rattle.judge.specs.CaseRows.{standing_in, Settled};
ghost use Rattle.judge.specs.View.{context_in, IsOf, IsSaid, IsAdmitted};
ghost use Rattle.register.specs.View.{most_counted};
ghost use Rattle.register.specs.RoomAndEmptying.{most_rows};

use crate::case_fields::{Residence, bad_birth, bad_residence, zero_kept};
use crate::case_rows::{CaseRows, case_events, case_stands, rows_held};
use crate::clashes::{clashes, one_key_twice, suspensions_share_a_day};
use crate::event_dates::{any_before, any_ends_first, any_out_of_quarter, out_of_quarter};
use crate::standing::some_event;
use crate::{Heading, Limits};
use checks::anomaly::Anomaly;
use checks::kinds::{cancels, inserts};
use days::table::Table;

// Against a case that stands, and its events' rows: 14, 15, 25 to 28, 17.
#[tactic(auto, unfolding(crate::specs::Asked::against_standing))]
fn against_standing(
    rows: CaseRows,
    l: Limits,
    h: &Heading,
    evs: &[u64],
    held: usize,
) -> Result<(), Anomaly>
    requires { (held < most_counted) × (length evs.now ≤ most_rows) }
    ensures { Settled rows.entry.reg.now rows.entry.lo rows.entry.hi
        → answer_of result ≡ against_standing (context_in l) (is_insert (type_of h.now.tipo)) (is_cancel (type_of h.now.tipo)) h.now.taken evs.now held (standing_in rows.entry.reg.now rows.entry.lo rows.entry.hi) }
{
    // an insertion must find none of its events standing, any other record all of them
    let new = inserts(h.tipo);
    if some_event(rows, evs, new) {
        return Err(if new {
            Anomaly::Standing
        } else {
            Anomaly::NotStanding
        });
    }
    if cancels(h.tipo) {
        return Ok(());
    }
    if any_before(h.taken, evs) {
        return Err(Anomaly::BeforeTakingIn);
    }
    if suspensions_share_a_day(evs, rows) {
        return Err(Anomaly::SharedDay);
    }
    if clashes(Anomaly::TwoConclusions as u64, evs, rows) {
        return Err(Anomaly::TwoConclusions);
    }
    if clashes(Anomaly::AfterConclusion as u64, evs, rows) {
        return Err(Anomaly::AfterConclusion);
    }
    if new & (l.room < held + evs.len()) {
        return Err(Anomaly::NoRoom);
    }
    Ok(())
}

// Track 2: 21 and 13 were told by reading.
pub fn judge_events(
    reg: &[u8],
    l: Limits,
    h: &Heading,
    evs: &[u64],
    bad: bool,
    zero: bool,
) -> Result<(), Anomaly>
    requires { (4 ≤ length reg.now) × (row_at siad (cases_held reg.now + events_held reg.now) ≤ length reg.now) × (length evs.now ≤ most_rows) }
    ensures { (g : Head) (es : List Said) → IsOf h.now.probe h.now.tipo h.now.taken g → IsSaid evs.now bad zero es → Readable (events g es)
        → is_sound reg.now ≡ true → answer_of result ≡ first (checks_of (context_in l) (events g es)) (state_of siad reg.now) }
{
    if evs.is_empty() {
        return Err(Anomaly::NoEvents);
    }
    if any_out_of_quarter(l, evs) {
        return Err(Anomaly::OutOfQuarter);
    }
    if bad {
        return Err(Anomaly::Conferma);
    }
    if zero {
        return Err(Anomaly::ZeroPrevalente);
    }
    if one_key_twice(evs, reg) {
        return Err(Anomaly::OneKey);
    }
    if any_ends_first(evs) {
        return Err(Anomaly::EndsBeforeBegin);
    }
    if !case_stands(reg, &h.probe) {
        return Err(Anomaly::NoCase);
    }
    let span = case_events(reg, &h.probe);
    let rows = CaseRows {
        reg,
        lo: span.lo,
        hi: span.hi,
    };
    against_standing(rows, l, h, evs, rows_held(reg))
}

// Against what stands of the case: 14, 15, 17.
#[tactic(auto, unfolding(crate::specs::Asked::answer_admission))]
fn against_case(reg: &[u8], l: Limits, h: &Heading) -> Result<(), Anomaly>
    requires { (4 ≤ length reg.now) × (row_at siad (cases_held reg.now + events_held reg.now) ≤ length reg.now) }
    ensures { is_sound reg.now ≡ true
        → answer_of result ≡ answer_admission (context_in l) (is_insert (type_of h.now.tipo)) false false false false
        (has (probe_key row_bytes key_bits h.now.probe) (state_of siad reg.now).cases) (cases_held reg.now + events_held reg.now) }
{
    let new = inserts(h.tipo);
    let stands = case_stands(reg, &h.probe);
    if new & stands {
        return Err(Anomaly::Standing);
    }
    if !new & !stands {
        return Err(Anomaly::NotStanding);
    }
    if new & (l.room < rows_held(reg) + 1) {
        return Err(Anomaly::NoRoom);
    }
    Ok(())
}

// Track 1: the case's birth year and prevalente, and the residence's texts.
pub fn judge_admission(
    t: &Table,
    reg: &[u8],
    l: Limits,
    h: &Heading,
    birth: u64,
    prevalente: &[u8],
    r: Residence,
) -> Result<(), Anomaly>
    requires { (h.now.taken < day_count) × (4 ≤ length reg.now) × (row_at siad (cases_held reg.now + events_held reg.now) ≤ length reg.now) }
    ensures { (g : Head) (a : Admission) → IsOf h.now.probe h.now.tipo h.now.taken g
        → IsAdmitted birth prevalente.now r.entry.region.now r.entry.asl.now r.entry.comune.now r.entry.stato.now a
        → is_sound reg.now ≡ true → answer_of result ≡ first (checks_of (context_in l) (admission g a)) (state_of siad reg.now) }
{
    if out_of_quarter(l, h.taken) {
        return Err(Anomaly::OutOfQuarter);
    }
    if bad_birth(t, h.taken, birth) {
        return Err(Anomaly::BirthYear);
    }
    if bad_residence(r) {
        return Err(Anomaly::Residence);
    }
    if zero_kept(prevalente) {
        return Err(Anomaly::ZeroPrevalente);
    }
    against_case(reg, l, h)
}
