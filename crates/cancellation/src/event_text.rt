// An event's text (RULES.md, U13 to U15): how long it is, and put into a lent output.
ghost use Rattle.std.specs.Prelude.{◌≡◌, [], ◌∷◌, ◌++◌, ◌≤◌, ◌<◌, ◌^◌, length, IfSome};
ghost use Rattle.laws.specs.Lists.{bytes};
ghost use Rattle.text.specs.Put.{Put};
ghost use Rattle.text.specs.Spelled.{spelled};
ghost use Rattle.markup.specs.Elements.Inside.{end as nothing};
ghost use Rattle.reading.specs.Print.{pairs_on, end_on, print_on};
ghost use Rattle.home_care.specs.Row.{event_bits};
ghost use Rattle.tracks.specs.EventElements.{worded_by};
ghost use Rattle.cancellation.specs.FileText.{text_on, event_worded, wording_of};
ghost use Rattle.cancellation.specs.View.{event_text, attribute_long, said, valued, IsShort};

use days::table::Table;
use days::written::put_date;
use home_care::event_bits::{accesses_of, code_of, conferma_of, date_of, end_of, kind_of};
use home_care::layout::NEVER;
use text::{put_decimal, put_text};
use tracks::wordings::{WORDINGS, Wording};

// How a kind is worded; a number that is no kind as the last one.
fn worded(kind: u64) -> Wording<'static>
    ensures { worded_by result ≡ wording_of kind }
{
    WORDINGS[kind.min(3) as usize]
}

// ---- how long

// The bytes of a date.
const DATE_BYTES: usize = 10;

// The digits of a number below 1,000.
fn digits(n: u64) -> usize
    requires { n < 1000 }
    ensures { (result ≡ length (spelled n)) × (result ≤ 3) }
{
    if n < 10 {
        return 1;
    }
    if n < 100 {
        return 2;
    }
    3
}

// An attribute by the lengths of its name and of its value, where it has one.
fn attribute(name: &[u8], value: Option<usize>) -> usize
    requires { (length name.now ≤ 18) × IfSome value (λ n. n ≤ 10) }
    ensures { (result ≡ attribute_long name.now value) × (result ≤ 32) }
{
    match value {
        Some(value) => name.len() + value + 4,
        None => 0,
    }
}

// The bytes of an event's text.
pub fn event_length(e: u64) -> usize
    requires { e < 2 ^ event_bits }
    ensures { (result ≡ length (event_text e)) × (result < 256) }
{
    let w = worded(kind_of(e));
    let code = digits(code_of(e));
    let date = attribute(w.date, Some(DATE_BYTES));
    let given = attribute(w.code, (!w.child).then_some(code));
    let end = attribute(w.end, (end_of(e) != NEVER).then_some(DATE_BYTES));
    let accesses = attribute(
        w.accesses,
        (accesses_of(e) != 0).then_some(digits(accesses_of(e))),
    );
    let conferma = attribute(
        w.conferma,
        (conferma_of(e) != 0).then_some(digits(conferma_of(e))),
    );
    let inside = if w.child {
        2 * w.code.len() + 5 + code
    } else {
        0
    };
    2 * w.element.len() + 5 + date + given + end + accesses + conferma + inside
}

// ---- put

// ` name="`, before a value.
fn put_named(out: &mut [u8], at: usize, name: &[u8]) -> usize
    ensures { Put at (bytes " " ++ (name.now ++ bytes "=\"")) out.old out.new result }
{
    let a = put_text(out, at, b" ");
    let b = put_text(out, a, name);
    put_text(out, b, b"=\"")
}

// What an attribute says.
#[derive(Clone, Copy)]
enum Value {
    Day(u64),
    Number(u64),
}

fn put_value(t: &Table, out: &mut [u8], at: usize, value: Value) -> usize
    requires { IsShort value }
    ensures { Put at (said value) out.old out.new result }
{
    match value {
        Value::Day(day) => put_date(t, out, at, day),
        Value::Number(n) => put_decimal(out, at, n),
    }
}

// An attribute, where it has a value.
fn put_attribute(t: &Table, out: &mut [u8], at: usize, name: &[u8], value: Option<Value>) -> usize
    requires { IfSome value IsShort }
    ensures { Put at (pairs_on (valued name.now value) []) out.old out.new result }
{
    let Some(value) = value else {
        return at;
    };
    let a = put_named(out, at, name);
    let b = put_value(t, out, a, value);
    put_text(out, b, b"\"")
}

// `</name>`.
fn put_end(out: &mut [u8], at: usize, name: &[u8]) -> usize
    ensures { Put at (end_on name.now []) out.old out.new result }
{
    let a = put_text(out, at, b"</");
    let b = put_text(out, a, name);
    put_text(out, b, b">")
}

// A child that holds a number.
fn put_child(out: &mut [u8], at: usize, name: &[u8], n: u64) -> usize
    ensures { Put at (print_on (text_on name.now (spelled n) nothing) []) out.old out.new result }
{
    let a = put_text(out, at, b"<");
    let b = put_text(out, a, name);
    let c = put_text(out, b, b">");
    let d = put_decimal(out, c, n);
    put_end(out, d, name)
}

// An event, by the names that its kind has.
fn put_worded(t: &Table, out: &mut [u8], at: usize, e: u64, w: &Wording) -> usize
    ensures { Put at (print_on (event_worded (worded_by w.now) e nothing) []) out.old out.new result }
{
    let a = put_text(out, at, b"<");
    let b = put_text(out, a, w.element);
    let c = put_attribute(t, out, b, w.date, Some(Value::Day(date_of(e))));
    let d = put_attribute(
        t,
        out,
        c,
        w.code,
        (!w.child).then_some(Value::Number(code_of(e))),
    );
    let f = put_attribute(
        t,
        out,
        d,
        w.end,
        (end_of(e) != NEVER).then_some(Value::Day(end_of(e))),
    );
    let g = put_attribute(
        t,
        out,
        f,
        w.accesses,
        (accesses_of(e) != 0).then_some(Value::Number(accesses_of(e))),
    );
    let h = put_attribute(
        t,
        out,
        g,
        w.conferma,
        (conferma_of(e) != 0).then_some(Value::Number(conferma_of(e))),
    );
    let i = put_text(out, h, b">");
    let j = if w.child {
        put_child(out, i, w.code, code_of(e))
    } else {
        i
    };
    put_end(out, j, w.element)
}

// An event.
pub fn put_event(t: &Table, out: &mut [u8], at: usize, e: u64) -> usize
    ensures { Put at (event_text e) out.old out.new result }
{
    put_worded(t, out, at, e, &worded(kind_of(e)))
}
