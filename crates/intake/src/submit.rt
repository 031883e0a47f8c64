// The whole call: a file answered, and taken into the register where nothing is wrong with it.
ghost use Rattle.std.specs.Prelude.{◌≡◌, ◌≤◌, true, ◌||◌, IfOk, eqb, length};
ghost use Rattle.markup.specs.Document.{document};
ghost use Rattle.register.specs.RoomAndEmptying.{room};
ghost use Rattle.home_care.specs.Row.{siad};
ghost use Rattle.soundness.specs.Sound.{is_sound};
ghost use Rattle.judge.specs.View.{context_in};
ghost use Rattle.intake.specs.FileAnswers.{Call, call_of, context_of, by_markup, submitted};
ghost use Rattle.intake.specs.Steps.{call_with};
ghost use Rattle.intake.specs.Told.{told_of};
ghost use Rattle.intake.specs.View.{Says};

use crate::records::{Tally, take_file};
use crate::{Refusal, Report};
use days::quarters::quarter_days;
use home_care::layout::ROW;
use judge::Limits;
use markup::file::document;
use register::room::room_of;
use schema::file::{ShapeFault, place_of};
use soundness::sound::is_sound;
use tracks::shapes::shape_of;

// The longest submission.
const LONGEST: usize = 1048576;

// From 5 on.
fn by_markup(
    l: Limits,
    track: u64,
    sub: &[u8],
    reg: &mut [u8],
    answers: &mut [u8],
) -> Result<Tally, Refusal>
    requires { ((eqb track 1 || eqb track 2) ≡ true) × (is_sound reg.old ≡ true) × (l.room ≡ room siad (length reg.old)) }
    ensures says { (x : Call) → context_in l ≡ context_of x (length reg.old) → Says (by_markup (call_with x sub.now track answers.old) reg.old (document sub.now)) (told_of result) reg.new answers.new }
    ensures counts { IfOk result (λ t. t.accepted ≤ t.records) }
{
    let Some(root) = document(sub) else {
        return Err(Refusal::Markup);
    };
    match shape_of(track, sub, root.at) {
        Err(fault) => match fault {
            ShapeFault::Faulty { number, from } => Err(Refusal::Shape {
                number,
                place: place_of(sub.len(), from),
            }),
            ShapeFault::Crowded(number) => Err(Refusal::Crowded(number)),
        },
        Ok(records) => {
            if answers.len() < records {
                return Err(Refusal::List);
            }
            let accepted = take_file(l, track, sub, root.at, records, reg, answers);
            Ok(Tally { records, accepted })
        }
    }
}

// The answers in the order of F1 to F8, and the records taken where none of them is given.
fn taken(
    sub: &[u8],
    track: u64,
    year: u64,
    quarter: u64,
    reg: &mut [u8],
    answers: &mut [u8],
) -> Result<Tally, Refusal>
    ensures says { Says (submitted (call_of sub.now track year quarter answers.old) reg.old) (told_of result) reg.new answers.new }
    ensures counts { IfOk result (λ t. t.accepted ≤ t.records) }
{
    let Some(days) = quarter_days(year, quarter) else {
        return Err(Refusal::Period);
    };
    if !((track == 1) | (track == 2)) {
        return Err(Refusal::Track);
    }
    if !is_sound(reg) {
        return Err(Refusal::Unsound);
    }
    if LONGEST < sub.len() {
        return Err(Refusal::TooLong);
    }
    let l = Limits {
        first: days.first as u64,
        last: days.last as u64,
        room: room_of(ROW, reg.len()),
    };
    by_markup(l, track, sub, reg, answers)
}

// A submission of a track, for a quarter, to a register: its answer, and what that tells.
pub fn submit(
    sub: &[u8],
    track: u64,
    year: u64,
    quarter: u64,
    reg: &mut [u8],
    answers: &mut [u8],
) -> Report
    ensures { Says (submitted (call_of sub.now track year quarter answers.old) reg.old) result reg.new answers.new }
{
    match taken(sub, track, year, quarter, reg, answers) {
        Ok(tally) => Report {
            answer: 0,
            number: 0,
            records: tally.records as u64,
            accepted: tally.accepted as u64,
            discarded: (tally.records - tally.accepted) as u64,
            place: 0,
        },
        Err(refusal) => refusal.into(),
    }
}
