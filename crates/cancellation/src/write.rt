// Writing a cancellation file: the answers in the order of U2, U4, U5 and U6, and the file where none of them holds.
ghost use Rattle.std.specs.Prelude.{◌≡◌, length};
ghost use Rattle.soundness.specs.View.{number_of as missing_number};
ghost use Rattle.cancellation.specs.CancelFile.{of_chosen, of_found, cancel_file, CancelTold};
ghost use Rattle.cancellation.specs.FileText.{case_texts};
ghost use Rattle.cancellation.specs.View.{chosen_by, texts_of, number_of, answer_of, length_of};

use crate::choice::Choice;
use crate::records::{MOST_EVENTS, put_file};
use crate::survey::survey;
use days::quarters::{Quarter, quarter_in};
use days::table::{Table, make};
use home_care::layout::ROW;
use judge::case_rows::case_events;
use soundness::find::{CaseTexts, Missing, find, probe_of};

// The bytes of the root's two tags, and of a record without its events: the case's texts have 104 of them.
const ROOT: usize = 27;

const RECORD: usize = 317;

// Why no file is written, by the numbers that are answered.
#[derive(Clone, Copy)]
pub enum NotWritten {
    NoPeriod = 1,
    Unsound = 3,
    Nowhere = 30,
    Replaces = 31,
    NoEvent = 32,
    TooShort = 33,
}

impl From<NotWritten> for u64 {
    ghost from_gives = { λ e n. n ≡ number_of e };

    fn from(e: NotWritten) -> u64 {
        e as u64
    }
}

impl From<Missing> for NotWritten {
    ghost from_gives = { λ m e. number_of e ≡ missing_number m };

    fn from(m: Missing) -> NotWritten {
        match m {
            Missing::Unsound => NotWritten::Unsound,
            Missing::Nowhere => NotWritten::Nowhere,
        }
    }
}

// From 31 on, of the case's rows.
#[tactic(auto, using(crate::proofs::ChosenRows::chosen_few))]
fn write_chosen(
    t: &Table,
    choice: &Choice,
    texts: &CaseTexts,
    out: &mut [u8],
) -> Result<usize, NotWritten>
    requires { (length texts.now.region.now ≡ 3) × (length texts.now.asl.now ≡ 3) × (length texts.now.date.now ≡ 10) × (length texts.now.id.now ≡ 88) }
    ensures { CancelTold (of_chosen (texts_of texts.now) (chosen_by choice.now) out.old) (answer_of result) (length_of result) out.new }
{
    let s = survey(choice);
    if s.replaced {
        return Err(NotWritten::Replaces);
    }
    if s.events == 0 {
        return Err(NotWritten::NoEvent);
    }
    let records = s.events.div_ceil(MOST_EVENTS);
    let length = ROOT + RECORD * records + s.bytes;
    if out.len() < length {
        return Err(NotWritten::TooShort);
    }
    put_file(t, choice, texts, records, out);
    Ok(length)
}

// From 3 on, for the days of a quarter.
fn write_found(
    t: &Table,
    reg: &[u8],
    days: Quarter,
    texts: &CaseTexts,
    out: &mut [u8],
) -> Result<usize, NotWritten>
    ensures { CancelTold (of_found reg.now (texts_of texts.now) days.first days.last out.old) (answer_of result) (length_of result) out.new }
{
    find(t, reg, texts)?;
    let probe: [u8; ROW] = probe_of(t, texts).unwrap();
    let rows = case_events(reg, &probe);
    let choice = Choice {
        reg,
        lo: rows.lo,
        hi: rows.hi,
        first: days.first as u64,
        last: days.last as u64,
    };
    write_chosen(t, &choice, texts, out)
}

// A cancellation file of the case that the texts name, for a quarter: its length.
pub fn cancel_file(
    reg: &[u8],
    region: &[u8],
    asl: &[u8],
    date: &[u8],
    id: &[u8],
    year: u64,
    quarter: u64,
    out: &mut [u8],
) -> Result<usize, NotWritten>
    ensures { CancelTold (cancel_file reg.now (case_texts region.now asl.now date.now id.now) year quarter out.old) (answer_of result) (length_of result) out.new }
{
    let t = make();
    let days = quarter_in(&t, year, quarter).ok_or(NotWritten::NoPeriod)?;
    let texts = CaseTexts {
        region,
        asl,
        date,
        id,
    };
    write_found(&t, reg, days, &texts, out)
}
