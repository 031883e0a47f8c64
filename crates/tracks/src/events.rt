// The events of a record of Track 2.
ghost use Rattle.std.specs.Prelude.{◌≡◌, List, ℕ, ◌+◌, ◌≤◌, ◌<◌, drop, true};
ghost use Rattle.markup.specs.NamesAndValues.Read.{read};
ghost use Rattle.markup.specs.Elements.{Inside, Tree, element, kids};
ghost use Rattle.markup.specs.View.{part};
ghost use Rattle.reading.specs.Everywhere.{Every};
ghost use Rattle.nodes.specs.Stands.{Stands, HoldsIn};
ghost use Rattle.home_care.specs.Row.{event_number, «evaluates»};
ghost use Rattle.tracks.specs.EventElements.{worded_by};
ghost use Rattle.tracks.specs.RecordFields.{◌▹◌, main_of, evaluation_for, event_by, said_with, said_in, all_said};
ghost use Rattle.tracks.specs.Typed.{Found, Evaluable, Worded, WordedByName};
ghost use Rattle.tracks.specs.Top.{OfShape};
ghost use Rattle.tracks.specs.View.{IsEvents, told, happened_at, counted, kept, kept_beside};

use crate::fields::{attr_day, attr_end, attr_number, child_text, text_number_at};
use crate::record::{Top, filled, valued};
use crate::wordings::{WORDINGS, Wording};
use codes::code_lists::REVALUATION;
use days::table::Table;
use home_care::evaluation::{evaluates, evaluation_number};
use home_care::event_bits::{conferma_of, kind_of};
use home_care::layout::ANEW;
use home_care::pack::event_number;
use markup::bytes::{part, same};
use nodes::children::{child, enter, is_named, next_kid};
use nodes::{Node, Opened, Span};
use reading::skips::skip;

#[derive(Clone, Copy)]
pub struct EventsRead {
    pub count: usize,
    pub bad_conferma: bool,
    pub zero_prevalente: bool,
}

// An event: its 52 bits with the two tests and the evaluation that is kept beside them.
#[derive(Clone, Copy)]
pub struct EventRead {
    pub number: u64,
    pub bad_conferma: bool,
    pub zero_prevalente: bool,
    pub evaluation: u64,
}

// What a Valutazione is read for: the text of its Prevalente, and the evaluation that an event keeps.
#[derive(Clone, Copy)]
pub struct EvaluationRead {
    pub main: Span,
    pub evaluation: u64,
}

// A Valutazione as an event of the number w keeps it; its scales are read only then.
fn evaluated(s: &[u8], value: Node, w: u64) -> EvaluationRead
    requires { Found s.now value (λ tree. «evaluates» w ≡ true → Evaluable tree) }
    ensures { (tree : Tree) → Stands value.levels (drop value.at s.now) tree → (part s.now result.main.start result.main.end ≡ main_of tree) × (result.evaluation ≡ evaluation_for w tree) }
{
    if !evaluates(w) {
        let illness = child(s, value, b"Patologia");
        return EvaluationRead {
            main: child_text(s, illness, b"Prevalente"),
            evaluation: 0,
        };
    }
    let v = valued(s, value);
    let main = v.main;
    let prevalente = filled(part(s, main.start, main.end));
    let scales = v.scales;
    EvaluationRead {
        main,
        evaluation: evaluation_number(&scales, &prevalente),
    }
}

// An event of the number w: its Valutazione, and its confermaPrecedente against it.
fn said(s: &[u8], n: Node, w: u64) -> EventRead
    requires { Found s.now n (λ tree. «evaluates» w ≡ true → Evaluable (tree ▹ "Valutazione")) }
    ensures { (tree : Tree) → Stands n.levels (drop n.at s.now) tree → result ≡ told (said_with w tree) }
{
    let value = child(s, n, b"Valutazione");
    let there = value.levels != 0;
    let conferma = conferma_of(w);
    let bad = (kind_of(w) == REVALUATION)
        & (((conferma == 1) & there) | ((conferma == ANEW) & !there));
    let kept = evaluated(s, value, w);
    let main = kept.main;
    let zero = same(part(s, main.start, main.end), b"000");
    EventRead {
        number: w,
        bad_conferma: bad,
        zero_prevalente: zero,
        evaluation: kept.evaluation,
    }
}

// An event as its kind is worded.
fn event(t: &Table, s: &[u8], n: Node, w: &Wording) -> EventRead
    requires { Found s.now n (Worded (worded_by w.now)) }
    ensures { (tree : Tree) → Stands n.levels (drop n.at s.now) tree → result ≡ told (said_with (event_number (event_by (worded_by w.now) tree)) tree) }
{
    let day = attr_day(t, s, n, w.date);
    let last = attr_end(t, s, n, w.end);
    let what = text_number_at(s, n, w.child, w.code);
    let times = attr_number(s, n, w.accesses);
    let confirmed = attr_number(s, n, w.conferma);
    said(
        s,
        n,
        event_number(w.kind, day, what, last, times, confirmed),
    )
}

// The event that a child of Eventi is, if it is one. The wordings are bound before they are lent, as the names in record.rt are.
fn event_at(t: &Table, s: &[u8], at: usize, levels: usize) -> Option<EventRead>
    requires { (tree : Tree) × (m : List ℕ) × (element levels (drop at s.now) ≡ read tree m) × WordedByName tree }
    ensures { (tree : Tree) (m : List ℕ) → element levels (drop at s.now) ≡ read tree m → result ≡ happened_at tree }
{
    let wordings = WORDINGS;
    for w in &wordings {
        if is_named(s, at, w.element) {
            return Some(event(t, s, Node { at, levels }, w));
        }
    }
    None
}

// A child more; past a buffer's end an event is only counted.
fn keep(
    out: &mut [u64],
    beside: &mut [u64],
    tally: EventsRead,
    happened: Option<EventRead>,
) -> EventsRead
    requires { tally.count < 18446744073709551615 }
    ensures { (result ≡ counted happened tally) × (out.new ≡ kept happened tally.count out.old)
        × (beside.new ≡ kept_beside happened tally.count beside.old) × (result.count ≤ tally.count + 1) }
{
    let Some(e) = happened else {
        return tally;
    };
    let n = tally.count;
    if n < out.len() {
        out[n] = e.number;
    }
    if n < beside.len() {
        beside[n] = e.evaluation;
    }
    EventsRead {
        count: n + 1,
        bad_conferma: tally.bad_conferma | e.bad_conferma,
        zero_prevalente: tally.zero_prevalente | e.zero_prevalente,
    }
}

const NO_EVENTS: EventsRead = EventsRead {
    count: 0,
    bad_conferma: false,
    zero_prevalente: false,
};

// The events among the children of what stands in Eventi.
fn events_from(
    t: &Table,
    s: &[u8],
    inside: Opened,
    out: &mut [u64],
    beside: &mut [u64],
) -> EventsRead
    requires { (i : Inside) × HoldsIn s.now inside i × Every WordedByName (kids i) }
    ensures { (i : Inside) → HoldsIn s.now inside i → IsEvents result out.old out.new beside.old beside.new (said_in (kids i)) }
{
    let mut at = inside.from;
    let mut tally = NO_EVENTS;
    loop {
        let Some(q) = next_kid(s, inside, at) else {
            return tally;
        };
        let Some(done) = skip(s, q) else {
            return tally;
        };
        let happened = event_at(t, s, q, inside.levels);
        tally = keep(out, beside, tally, happened);
        at = done.at;
    }
}

// The events of a record: their 52 bits in order and the evaluations beside them, as many as a buffer has room for, their number, and the two tests. Two lent
// buffers and no list of pairs: no memory is taken, and C lends two (`bench_store_events`).
pub fn events(t: &Table, s: &[u8], top: Top, out: &mut [u64], beside: &mut [u64]) -> EventsRead
    requires { (a : Tree) × OfShape 2 s.now top a }
    ensures { (a : Tree) → OfShape 2 s.now top a → IsEvents result out.old out.new beside.old beside.new (all_said a) }
{
    match enter(s, top.events) {
        Some(inside) => events_from(t, s, inside, out, beside),
        None => NO_EVENTS,
    }
}
