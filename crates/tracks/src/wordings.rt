// How a file words the four kinds of event (SIAD 6.4, 4.6.2), as data.
use codes::code_lists::{CONCLUSION, REVALUATION, SERVICE, SUSPENSION};

// An event's element and the attributes of its fields; a code may be a child's text instead; a kind lacks the fields whose names are empty,
// as in specs/EventElements, which has `child` too.
#[derive(Clone, Copy)]
pub struct Wording<'a> {
    pub kind: u64,
    pub element: &'a [u8],
    pub date: &'a [u8],
    pub end: &'a [u8],
    pub child: bool,
    pub code: &'a [u8],
    pub accesses: &'a [u8],
    pub conferma: &'a [u8],
}

// In the order of their numbers.
pub const WORDINGS: [Wording; 4] = [
    Wording {
        kind: REVALUATION,
        element: b"Rivalutazione",
        date: b"data",
        end: b"",
        child: false,
        code: b"motivo",
        accesses: b"",
        conferma: b"confermaPrecedente",
    },
    Wording {
        kind: SERVICE,
        element: b"Erogazione",
        date: b"data",
        end: b"",
        child: true,
        code: b"TipoOperatore",
        accesses: b"numAccessi",
        conferma: b"",
    },
    Wording {
        kind: SUSPENSION,
        element: b"Sospensione",
        date: b"dataInizio",
        end: b"dataFine",
        child: true,
        code: b"Motivazione",
        accesses: b"",
        conferma: b"",
    },
    Wording {
        kind: CONCLUSION,
        element: b"Conclusione",
        date: b"dataAD",
        end: b"",
        child: true,
        code: b"Motivazione",
        accesses: b"",
        conferma: b"",
    },
];
