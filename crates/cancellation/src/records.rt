// The records of a cancellation file (RULES.md, U11, U12), put into a lent output: the second pass over the case's rows.
ghost use Rattle.std.specs.Prelude.{◌≡◌, [], ◌∷◌, length};
ghost use Rattle.text.specs.Put.{Put};
ghost use Rattle.cancellation.specs.FileText.{shares, record_count, file_text};
ghost use Rattle.cancellation.specs.View.{chosen_by, texts_of, events_text, head_text, records_text, PutsShare};

use crate::choice::Choice;
use crate::event_text::put_event;
use crate::survey::dated_in;
use days::table::Table;
use judge::standing::event_at;
use soundness::find::CaseTexts;
use text::put_text;

// A record that is taken has no more events (F7).
pub const MOST_EVENTS: usize = 128;

// The row and the place that writing has come to.
#[derive(Clone, Copy)]
pub struct Reached {
    pub row: usize,
    pub at: usize,
}

// At most 128 of the chosen events.
fn put_events(t: &Table, choice: &Choice, out: &mut [u8], at: usize) -> Reached
    ensures { PutsShare choice.now at out.old out.new events_text result }
{
    let mut next = at;
    let mut n = 0;
    for row in choice.lo..choice.hi {
        if n == MOST_EVENTS {
            return Reached { row, at: next };
        }
        let e = event_at(choice.reg, row);
        if dated_in(choice.first, choice.last, e) {
            next = put_event(t, out, next, e);
            n += 1;
        }
    }
    Reached {
        row: choice.hi,
        at: next,
    }
}

// What stands before a record's events: its type, the sender, the case.
fn put_head(out: &mut [u8], at: usize, texts: &CaseTexts) -> usize
    ensures { Put at (head_text (texts_of texts.now)) out.old out.new result }
{
    let a = put_text(
        out,
        at,
        b"<Assistenza><Trasmissione tipo=\"C\"></Trasmissione><Erogatore><CodiceRegione>",
    );
    let b = put_text(out, a, texts.region);
    let c = put_text(out, b, b"</CodiceRegione><CodiceASL>");
    let d = put_text(out, c, texts.asl);
    let e = put_text(
        out,
        d,
        b"</CodiceASL></Erogatore><Eventi><PresaInCarico data=\"",
    );
    let f = put_text(out, e, texts.date);
    let g = put_text(out, f, b"\"><Id_Rec>");
    let h = put_text(out, g, texts.id);
    put_text(out, h, b"</Id_Rec></PresaInCarico>")
}

// A record with at most 128 of the chosen events.
fn put_record(t: &Table, choice: &Choice, texts: &CaseTexts, out: &mut [u8], at: usize) -> Reached
    ensures { PutsShare choice.now at out.old out.new (λ es. records_text (texts_of texts.now) (es ∷ [])) result }
{
    let a = put_head(out, at, texts);
    let done = put_events(t, choice, out, a);
    Reached {
        at: put_text(out, done.at, b"</Eventi></Assistenza>"),
        ..done
    }
}

// So many records, one after the other.
fn put_records(
    t: &Table,
    choice: &Choice,
    texts: &CaseTexts,
    records: usize,
    out: &mut [u8],
    at: usize,
) -> usize
    requires { records ≡ record_count (length (chosen_by choice.now)) }
    ensures { Put at (records_text (texts_of texts.now) (shares (chosen_by choice.now))) out.old out.new result }
{
    let mut done = Reached { row: choice.lo, at };
    for _ in 0..records {
        // Each field by its name: a struct that holds a fact takes no `..`.
        let rest = Choice {
            reg: choice.reg,
            lo: done.row,
            hi: choice.hi,
            first: choice.first,
            last: choice.last,
        };
        done = put_record(t, &rest, texts, out, done.at);
    }
    done.at
}

// The whole file, from the output's first byte on.
pub fn put_file(
    t: &Table,
    choice: &Choice,
    texts: &CaseTexts,
    records: usize,
    out: &mut [u8],
) -> usize
    requires { records ≡ record_count (length (chosen_by choice.now)) }
    ensures { Put 0 (file_text (texts_of texts.now) (chosen_by choice.now)) out.old out.new result }
{
    let a = put_text(out, 0, b"<FlsAssDom_2>");
    let b = put_records(t, choice, texts, records, out, a);
    put_text(out, b, b"</FlsAssDom_2>")
}
