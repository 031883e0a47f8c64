// The anomalies of a record, by what each says, and their numbers (RULES.md, 7 Anomalies of a record).
ghost use Rattle.std.specs.Prelude.{◌≡◌};
ghost use Rattle.checks.specs.Numbers.{answer_of, number_of};

#[derive(Clone, Copy, Debug, PartialEq, Eq)]
pub enum Anomaly {
    OutOfQuarter = 10,
    BirthYear = 11,
    Residence = 12,
    ZeroPrevalente = 13,
    Standing = 14,
    NotStanding = 15,
    NoRoom = 17,
    NoEvents = 20,
    Conferma = 21,
    OneKey = 22,
    EndsBeforeBegin = 23,
    NoCase = 24,
    BeforeTakingIn = 25,
    SharedDay = 26,
    TwoConclusions = 27,
    AfterConclusion = 28,
}

// The number that the answer list tells.
impl From<Anomaly> for u8 {
    ghost from_gives = { λ a n. n ≡ number_of a };

    fn from(a: Anomaly) -> u8 {
        a as u8
    }
}

// The byte of a record in the answer list.
pub fn answer_of(judged: Result<(), Anomaly>) -> u8
    ensures { result ≡ answer_of judged }
{
    match judged {
        Ok(()) => 0,
        Err(anomaly) => anomaly.into(),
    }
}
