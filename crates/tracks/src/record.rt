// A record's children and its end, its head, and a record of Track 1.
ghost use Rattle.std.specs.Prelude.{◌≡◌, List, ℕ, ◌≤◌, ◌<◌, IfSome, drop};
ghost use Rattle.laws.specs.Decimal.{decimal};
ghost use Rattle.days.specs.DayNumbers.{day_count};
ghost use Rattle.markup.specs.NamesAndValues.Read.{read};
ghost use Rattle.markup.specs.Elements.{Tree, element};
ghost use Rattle.markup.specs.View.{part, view_move, ok_move, left};
ghost use Rattle.reading.specs.Many.{below_root};
ghost use Rattle.nodes.specs.Stands.{Stands};
ghost use Rattle.nodes.specs.Several.{Unfinished};
ghost use Rattle.nodes.specs.Lookup.{text_of};
ghost use Rattle.home_care.specs.Record.{padded};
ghost use Rattle.tracks.specs.RecordFields.{head_of, main_of, scales_of, admission_of};
ghost use Rattle.tracks.specs.Typed.{Found, IsScale, Scaled};
ghost use Rattle.tracks.specs.Top.{TopOf, OfShape};
ghost use Rattle.tracks.specs.View.{IsHead, IsAdmission};

use crate::fields::{attr_byte, attr_day, child_number, child_text, text_number};
use days::table::Table;
use markup::Cursor;
use markup::bytes::{part, peek};
use nodes::children::child;
use nodes::several::walk;
use nodes::values::text;
use nodes::{Node, Span};
use reading::skips::{past, skip};

// The type, and the case's key: ASL's 3 bytes and Id_Rec's 88 by their places.
#[derive(Clone, Copy)]
pub struct HeadRead {
    pub tipo: u8,
    pub region: u64,
    pub asl: usize,
    pub day: u64,
    pub id: usize,
}

// The case, and the residence's texts by their places.
#[derive(Clone, Copy)]
pub struct AdmissionRead {
    pub birth: u64,
    pub prevalente: [u8; 5],
    pub scales: [u8; 6],
    pub region: Span,
    pub asl: Span,
    pub comune: Span,
    pub stato: Span,
}

// The children of a record that its fields are read from.
#[derive(Clone, Copy)]
pub struct Top {
    pub transmission: Node,
    pub patient: Node,
    pub provider: Node,
    pub events: Node,
}

// These, and the place inside the record where the walk ended, if anything stands in it.
#[derive(Clone, Copy)]
pub struct TopFound {
    pub found: Top,
    pub rest: Option<usize>,
}

// The children of the record at a place that its fields are read from, in one walk. Here and below the names are bound before they are lent: references that
// are lent as they are written become data that a linker may leave writable, and the archive has none (host/README.md).
pub fn top_of(s: &[u8], at: usize) -> TopFound
    ensures { ((a : Tree) (m : List ℕ) → element below_root (drop at s.now) ≡ read a m → TopOf s.now at a result.found × Unfinished s.now result.rest m) × IfSome result.rest (λ p. at ≤ p) }
{
    let node = Node { at, levels: 11 };
    let names: [&[u8]; 4] = [b"Trasmissione", b"Assistito", b"Erogatore", b"Eventi"];
    let walked = walk::<4>(s, node, &names);
    let [transmission, patient, provider, events] = walked.found;
    TopFound {
        found: Top {
            transmission,
            patient,
            provider,
            events,
        },
        rest: walked.rest,
    }
}

// The place past the record at a place, from the place where its walk ended on.
pub fn record_end(s: &[u8], at: usize, rest: Option<usize>) -> Option<Cursor>
    requires { IfSome rest (λ p. at ≤ p) }
    ensures { ((a : Tree) (m : List ℕ) → element below_root (drop at s.now) ≡ read a m → Unfinished s.now rest m → view_move s.now result ≡ left (element below_root (drop at s.now))) × ok_move s.now at result }
{
    let Some(place) = rest else {
        return skip(s, at);
    };
    past(s, place)
}

// The head of a record.
pub fn head(t: &Table, s: &[u8], top: Top) -> HeadRead
    requires { (track : ℕ) × (a : Tree) × OfShape track s.now top a }
    ensures { ((track : ℕ) (a : Tree) → OfShape track s.now top a → IsHead s.now result (head_of a)) × (result.day < day_count) }
{
    let taken = child(s, top.events, b"PresaInCarico");
    let asl = child_text(s, top.provider, b"CodiceASL");
    let id = child_text(s, taken, b"Id_Rec");
    HeadRead {
        tipo: attr_byte(s, top.transmission, b"tipo"),
        region: child_number(s, top.provider, b"CodiceRegione"),
        asl: asl.start,
        day: attr_day(t, s, taken, b"data"),
        id: id.start,
    }
}

// A text of at most five bytes, filled up with zeros.
pub fn filled(x: &[u8]) -> [u8; 5]
    ensures { result ≡ padded x.now }
{
    let n = x.len().min(5);
    let mut out = [0; 5];
    out[..n].copy_from_slice(&x[..n]);
    out
}

// A scale from 1 to 3, and 0 where it is missing, as a row keeps it.
fn scale(s: &[u8], n: Node) -> u8
    requires { Found s.now n (λ tree. IsScale (text_of tree)) }
    ensures { (tree : Tree) → Stands n.levels (drop n.at s.now) tree → result ≡ decimal (text_of tree) }
{
    if n.levels == 0 {
        return 0;
    }
    text_number(s, n) as u8
}

// What is read of a Valutazione: the text of its Patologia's Prevalente, and its six scales.
#[derive(Clone, Copy)]
pub struct ValueRead {
    pub main: Span,
    pub scales: [u8; 6],
}

pub fn valued(s: &[u8], value: Node) -> ValueRead
    requires { Found s.now value Scaled }
    ensures { (tree : Tree) → Stands value.levels (drop value.at s.now) tree → (part s.now result.main.start result.main.end ≡ main_of tree) × (result.scales ≡ scales_of tree) }
{
    let names: [&[u8]; 6] = [
        b"Patologia",
        b"Autonomia",
        b"GradoMobilita",
        b"Disturbi",
        b"SupportoSociale",
        b"RischioInfettivo",
    ];
    let [illness, autonomy, mobility, troubles, support, infection] = walk::<6>(
        s, value, &names,
    ).found;
    let cognitive = child(s, troubles, b"Cognitivi");
    let behaviour = child(s, troubles, b"Comportamentali");
    ValueRead {
        main: child_text(s, illness, b"Prevalente"),
        scales: [
            scale(s, autonomy),
            scale(s, mobility),
            scale(s, cognitive),
            scale(s, behaviour),
            scale(s, support),
            scale(s, infection),
        ],
    }
}

// The case and the residence of a record.
pub fn admission(s: &[u8], top: Top) -> AdmissionRead
    requires { (a : Tree) × OfShape 1 s.now top a }
    ensures { (a : Tree) → OfShape 1 s.now top a → IsAdmission s.now result (admission_of a) }
{
    let person = child(s, top.patient, b"DatiAnagrafici");
    let names: [&[u8]; 2] = [b"AnnoNascita", b"Residenza"];
    let [birth, home] = walk::<2>(s, person, &names).found;
    let names: [&[u8]; 4] = [b"Regione", b"ASL", b"Comune", b"StatoEstero"];
    let [region, asl, comune, stato] = walk::<4>(s, home, &names).found;
    let value = valued(s, child(s, top.events, b"Valutazione"));
    let prevalente = filled(part(s, value.main.start, value.main.end));
    let scales = value.scales;
    AdmissionRead {
        birth: text_number(s, birth),
        prevalente,
        scales,
        region: text(s, region),
        asl: text(s, asl),
        comune: text(s, comune),
        stato: text(s, stato),
    }
}
