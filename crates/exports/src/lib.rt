// The calls for a host, one body each, over numbers and slices: no caller is trusted, and every lent byte is stated. Crate exports_c gives them to C.
// A case's texts come one by one and refusals go as numbers: that is the C interface (host/siad.h), which stays.
#![tactic(auto)]

ghost use Rattle.std.specs.Prelude.{◌≡◌, MatchResult};
ghost use Rattle.register.specs.RoomAndEmptying.{emptied};
ghost use Rattle.soundness.specs.Sound.{soundness};
ghost use Rattle.soundness.specs.Finding.{found};
ghost use Rattle.intake.specs.FileAnswers.{call_of, submitted};
ghost use Rattle.cancellation.specs.FileText.{case_texts};
ghost use Rattle.cancellation.specs.CancelFile.{cancel_file, CancelTold};
ghost use Rattle.evaluation.specs.InForce.{evaluated};
ghost use Rattle.widening.specs.Converted.{converted};
ghost use Rattle.exports.specs.Told.{laid_over, Told};

use soundness::find::CaseTexts;

// As many of the numbers as fit a report, from its first entry on.
fn report_on(report: &mut [u64], numbers: &[u64])
    ensures { report.new ≡ laid_over report.old numbers.now }
{
    let fit = report.len().min(numbers.len());
    report[..fit].copy_from_slice(&numbers[..fit]);
}

// 0 for a call that did what it was asked for, else the number of its refusal.
fn answer<T: Drop, E: Into<u64>>(done: Result<T, E>) -> u64
    ensures { MatchResult done (λ _. result ≡ 0) (λ refusal. E.converts refusal result) }
{
    match done {
        Ok(_) => 0,
        Err(refusal) => refusal.into(),
    }
}

// Takes a submission: its answer, and in the report the record number, the records, the accepted, the discarded and the place.
pub fn siad_submit(
    sub: &[u8],
    track: u64,
    year: u64,
    quarter: u64,
    reg: &mut [u8],
    answers: &mut [u8],
    report: &mut [u64],
) -> u64
    ensures { Told (submitted (call_of sub.now track year quarter answers.old) reg.old) report.old result report.new reg.new answers.new }
{
    let said = intake::submit::submit(sub, track, year, quarter, reg, answers);
    let numbers = [
        said.number,
        said.records,
        said.accepted,
        said.discarded,
        said.place,
    ];
    report_on(report, &numbers);
    said.answer
}

// Empties a register: 0, or 3 under 4 bytes.
pub fn siad_empty(reg: &mut [u8]) -> u64
    ensures { (result ≡ (emptied reg.old).answer) × (reg.new ≡ (emptied reg.old).register) }
{
    answer(register::emptying::empty(reg))
}

// 0 for a sound register, else 3.
#[tactic(auto, unfolding(soundness::specs::Sound::soundness))]
pub fn siad_sound(reg: &[u8]) -> u64
    ensures { result ≡ soundness reg.now }
{
    let sound = soundness::sound::is_sound(reg);
    if sound { 0 } else { 3 }
}

// The place of a case's row: 0, or 3 for an unsound register, or 30 where a text isn't allowed or the case doesn't stand.
pub fn siad_find(
    reg: &[u8],
    region: &[u8],
    asl: &[u8],
    date: &[u8],
    id: &[u8],
    place: &mut u64,
) -> u64
    ensures { (result ≡ (found reg.now region.now asl.now date.now id.now).answer)
        × (place.new ≡ (found reg.now region.now asl.now date.now id.now).place) }
{
    let t = days::table::make();
    let texts = CaseTexts {
        region,
        asl,
        date,
        id,
    };
    let found = soundness::find::find(&t, reg, &texts);
    *place = found.unwrap_or(0) as u64;
    answer(found)
}

// Writes the file that cancels what a case has in a quarter: 0 with its length; or 1 for no such period, 3, 30 as finding answers, 31 where one of the events is
// a Rivalutazione with conferma 2, 32 where there is none, 33 where the output is too short, and then the length is 0.
pub fn siad_cancel_file(
    reg: &[u8],
    region: &[u8],
    asl: &[u8],
    date: &[u8],
    id: &[u8],
    year: u64,
    quarter: u64,
    out: &mut [u8],
    length: &mut u64,
) -> u64
    ensures { CancelTold (cancel_file reg.now (case_texts region.now asl.now date.now id.now) year quarter out.old) result length.new out.new }
{
    let written = cancellation::write::cancel_file(reg, region, asl, date, id, year, quarter, out);
    *length = written.unwrap_or(0) as u64;
    answer(written)
}

// The evaluation of a case in force on a day: 0 with six numbers and the prevalente's five characters; or 3 or 30, as finding answers, 30 also for a day that is
// none or is before the taking in, and then zeros.
pub fn siad_evaluation(
    reg: &[u8],
    region: &[u8],
    asl: &[u8],
    date: &[u8],
    id: &[u8],
    day: &[u8],
    fields: &mut [u8; 11],
) -> u64
    ensures { (result ≡ (evaluated reg.now region.now asl.now date.now id.now day.now).answer)
        × (fields.new ≡ (evaluated reg.now region.now asl.now date.now id.now day.now).fields) }
{
    let t = days::table::make();
    let texts = CaseTexts {
        region,
        asl,
        date,
        id,
    };
    answer(evaluation::in_force::evaluation(&t, reg, &texts, day, fields))
}

// A register in rows of 91 bytes converted into a new one: 0; or 3 for any other register, 33 where the new one is too short, and then no byte changes.
pub fn siad_convert(old: &[u8], new: &mut [u8]) -> u64
    ensures { (result ≡ (converted old.now new.old).answer) × (new.new ≡ (converted old.now new.old).register) }
{
    answer(widening::convert::convert(old, new))
}
