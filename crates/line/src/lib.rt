// The program's first line: track, year and quarter (RULES.md, 11 The program).
#![tactic(auto)]

ghost use Rattle.std.specs.Prelude.{◌≡◌, ◌+◌, ◌<◌, drop};
ghost use Rattle.laws.specs.Decimal.{is_digit};
ghost use Rattle.markup.specs.Bytes.{run_length};
ghost use Rattle.line.specs.Line.{number_to, first_line, request};
ghost use Rattle.line.specs.View.{view_number, ok_number, view_line, ok_line, view_asked, ok_asked};

use codes::digits::{is_digit, read_digits};
use markup::bytes::{part, peek};

// A number, and the place after its mark.
#[derive(Clone, Copy)]
pub struct Number {
    pub value: u64,
    pub next: usize,
}

// What the first line says, and the place where the submission begins.
#[derive(Clone, Copy)]
pub struct Request {
    pub track: u64,
    pub year: u64,
    pub quarter: u64,
    pub body: usize,
}

// What is printed in place of an answer: `line` for any other first line, `long` for a submission that is too long.
#[derive(Clone, Copy)]
pub enum Refusal {
    Line,
    Long,
}

// L3: "a submission of more than 49,152 bytes" is too long.
const MOST: usize = 49152;

// The place after the digits at a place.
fn digits_end(s: &[u8], from: usize) -> usize
    ensures { result ≡ from + run_length is_digit (drop from s.now) }
{
    let rest = part(s, from, s.len());
    from + rest
        .iter()
        .position(|b| !is_digit(*b))
        .unwrap_or(rest.len())
}

// A number of 1 to 4 digits, and the mark that must follow it.
fn number_to(s: &[u8], from: usize, mark: u8) -> Option<Number>
    requires { 0 < mark }
    ensures { (view_number s.now result ≡ number_to mark (drop from s.now)) × ok_number s.now from result }
{
    let end = digits_end(s, from);
    if end == from {
        return None;
    }
    if 4 < end - from {
        return None;
    }
    if peek(s, end) != mark {
        return None;
    }
    let value = read_digits(part(s, from, end), 9999).number;
    Some(Number {
        value,
        next: end + 1,
    })
}

// The first line of the program's input.
#[tactic(auto, unfolding(crate::specs::Line::first_line))]
pub fn first_line(s: &[u8]) -> Option<Request>
    ensures { (view_line s.now result ≡ first_line s.now) × ok_line s.now result }
{
    let track = number_to(s, 0, b' ')?;
    let year = number_to(s, track.next, b' ')?;
    let quarter = number_to(s, year.next, b'\n')?;
    Some(Request {
        track: track.value,
        year: year.value,
        quarter: quarter.value,
        body: quarter.next,
    })
}

// What the program's input asks of it: to take the submission, or to print a word and no more.
#[tactic(auto, unfolding(crate::specs::Line::request))]
pub fn asked_by(s: &[u8]) -> Result<Request, Refusal>
    ensures { (view_asked s.now result ≡ request s.now) × ok_asked s.now result }
{
    let asked = first_line(s).ok_or(Refusal::Line)?;
    if MOST < s.len() - asked.body {
        return Err(Refusal::Long);
    }
    Ok(asked)
}
