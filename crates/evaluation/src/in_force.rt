// A case's evaluation on a day: that of its latest Rivalutazione that keeps one, else its own.
ghost use Rattle.std.specs.Prelude.{◌≡◌, ◌++◌, not, ◌&&◌, ◌+◌, ◌-◌, ◌*◌, ◌^◌, ◌≤◌, ◌<◌, eqb, length, replicate};
ghost use Rattle.rows.specs.Packing.{num, each_at};
ghost use Rattle.register.specs.Layout.{row_at};
ghost use Rattle.register.specs.State.{state_of};
ghost use Rattle.register.specs.Search.{probe_key};
ghost use Rattle.home_care.specs.Row.{row_bytes, key_bits, day_bits, char_bits, scale_bits, siad, event_number_in, evaluation_in, «evaluates»};
ghost use Rattle.home_care.specs.Fits.{as_event};
ghost use Rattle.home_care.specs.EventRows.{Climbs};
ghost use Rattle.soundness.specs.Finding.{found};
ghost use Rattle.evaluation.specs.InForce.{in_force, fields_of, field_count, evaluated};
ghost use Rattle.evaluation.specs.View.{LastKept, StandsAt, answer_of};

use days::dates::read_date;
use days::table::Table;
use home_care::evaluation::{evaluates, evaluation_in};
use home_care::event_bits::event_of;
use home_care::layout::{
    AFTER_EVENT, CASE_KEY, CHAR_BITS, DATED_BITS, DAY_BITS, EVALUATED_PREVALENTE, PREVALENTE, ROW,
    SCALE_BITS, SCALES, TAKEN,
};
use judge::case_rows::case_events;
use register::row::row_at;
use register::search::place_by;
use rows::reader::{get, read_run};
use soundness::find::{CaseTexts, Missing, find, probe_of};

// How many numbers an evaluation is told by.
pub const FIELDS: usize = 11;

// An evaluation in a row: its six scales from one place on, its prevalente from another.
fn read_fields(row: &[u8], scales: usize, prevalente: usize, fields: &mut [u8; FIELDS])
    requires { (length row.now ≡ row_bytes) × (scales + scale_bits * 6 ≤ 8 * row_bytes) × (prevalente + char_bits * 5 ≤ 8 * row_bytes) }
    ensures { fields.new ≡ each_at (8 * row_bytes - (scales + scale_bits * 6)) 6 scale_bits (num row.now) ++ each_at (8 * row_bytes - (prevalente + char_bits * 5)) 5 char_bits (num row.now) }
{
    let (six, five) = fields.split_at_mut(6);
    read_run(row, scales, SCALE_BITS, six);
    read_run(row, prevalente, CHAR_BITS, five);
}

// Whether an event's row keeps an evaluation.
fn keeps(row: &[u8]) -> bool
    requires { length row.now ≡ row_bytes }
    ensures { result ≡ («evaluates» (event_number_in (as_event row.now)) && not (eqb (evaluation_in (as_event row.now)) 0)) }
{
    evaluates(event_of(row)) & (evaluation_in(row) != 0)
}

// Of a case's rows from lo up to hi the last that is in force on the day: Rivalutazioni stand first, in the order of their dates.
fn latest(reg: &[u8], lo: usize, hi: usize, day: u64) -> Option<usize>
    requires { (lo ≤ hi) × (row_at siad hi ≤ length reg.now) × (day < 2 ^ day_bits) }
    ensures { Climbs reg.now lo hi → LastKept reg.now day lo hi result }
{
    let late = place_by(reg, ROW, lo, hi, CASE_KEY, DATED_BITS, day + 1);
    for i in (lo..late).rev() {
        if keeps(row_at(reg, ROW, i)) {
            return Some(i);
        }
    }
    None
}

// The fields of the case whose row begins at a place, and whose key the probe has, on a day.
#[tactic(auto, using(crate::proofs::FieldsInForce::rows_inside))]
fn put_fields(reg: &[u8], probe: &[u8; ROW], place: usize, day: u64, fields: &mut [u8; FIELDS])
    requires { StandsAt reg.now (probe_key row_bytes key_bits probe.now) place × (day < 2 ^ day_bits) }
    ensures { fields.new ≡ fields_of (in_force (state_of siad reg.now) (probe_key row_bytes key_bits probe.now) day) }
{
    let rows = case_events(reg, probe);
    match latest(reg, rows.lo, rows.hi, day) {
        Some(i) => read_fields(
            row_at(reg, ROW, i),
            AFTER_EVENT,
            EVALUATED_PREVALENTE,
            fields,
        ),
        None => read_fields(&reg[place..place + ROW], SCALES, PREVALENTE, fields),
    }
}

// Once the case is found: the day, then the fields.
fn on_day(
    t: &Table,
    reg: &[u8],
    place: usize,
    texts: &CaseTexts,
    day: &[u8],
    fields: &mut [u8; FIELDS],
) -> Result<(), Missing>
    requires { (fields.old ≡ replicate field_count 0) × (record { answer = 0; place = place } ≡ found reg.now texts.now.region.now texts.now.asl.now texts.now.date.now texts.now.id.now) }
    ensures { (answer_of result ≡ (evaluated reg.now texts.now.region.now texts.now.asl.now texts.now.date.now texts.now.id.now day.now).answer)
        × (fields.new ≡ (evaluated reg.now texts.now.region.now texts.now.asl.now texts.now.date.now texts.now.id.now day.now).fields) }
{
    if day.len() != 10 {
        return Err(Missing::Nowhere);
    }
    let Some(read) = read_date(t, day, 0) else {
        return Err(Missing::Nowhere);
    };
    let on = read.day as u64;
    let probe: [u8; ROW] = probe_of(t, texts).unwrap();
    if on < get(&probe, TAKEN, DAY_BITS) {
        return Err(Missing::Nowhere);
    }
    put_fields(reg, &probe, place, on, fields);
    Ok(())
}

// The evaluation of the case that the texts name on a day: its fields, or zeros where there is none.
pub fn evaluation(
    t: &Table,
    reg: &[u8],
    texts: &CaseTexts,
    day: &[u8],
    fields: &mut [u8; FIELDS],
) -> Result<(), Missing>
    ensures { (answer_of result ≡ (evaluated reg.now texts.now.region.now texts.now.asl.now texts.now.date.now texts.now.id.now day.now).answer)
        × (fields.new ≡ (evaluated reg.now texts.now.region.now texts.now.asl.now texts.now.date.now texts.now.id.now day.now).fields) }
{
    *fields = [0; FIELDS];
    let place = find(t, reg, texts)?;
    on_day(t, reg, place, texts, day, fields)
}
