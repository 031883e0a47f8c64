// A file taken into a register (RULES.md, 6 Answers for a file).
#![tactic(auto)]

pub mod heading;
pub mod record;
pub mod records;
pub mod submit;
pub mod track1;
pub mod track2;

ghost use Rattle.std.specs.Prelude.{◌≡◌};
ghost use Rattle.intake.specs.Told.{told_by};

// The file's answer, the record number, the counts, and the place: numbers, as `siad_submit` tells them to C (host/siad.h).
#[derive(Clone, Copy)]
pub struct Report {
    pub answer: u64,
    pub number: u64,
    pub records: u64,
    pub accepted: u64,
    pub discarded: u64,
    pub place: u64,
}

// Why a file is refused: F1 to F8, in their order.
#[derive(Clone, Copy, Debug, PartialEq, Eq)]
pub enum Refusal {
    Period,
    Track,
    Unsound,
    TooLong,
    Markup,
    Shape { number: usize, place: usize },
    Crowded(usize),
    List,
}

// The answer, with the record number and the place that it tells.
impl From<Refusal> for Report {
    ghost from_gives = { λ r told. told ≡ told_by r };

    fn from(refusal: Refusal) -> Report {
        let (answer, number, place) = match refusal {
            Refusal::Period => (1, 0, 0),
            Refusal::Track => (2, 0, 0),
            Refusal::Unsound => (3, 0, 0),
            Refusal::TooLong => (4, 0, 0),
            Refusal::Markup => (5, 0, 0),
            Refusal::Shape { number, place } => (6, number, place),
            Refusal::Crowded(number) => (7, number, 0),
            Refusal::List => (8, 0, 0),
        };
        Report {
            answer,
            number: number as u64,
            records: 0,
            accepted: 0,
            discarded: 0,
            place: place as u64,
        }
    }
}
