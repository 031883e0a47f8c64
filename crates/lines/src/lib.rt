// What the program prints (RULES.md, 11 The program), made as bytes in a buffer of its own: that they are written to standard output is
// `console`'s part. Each function says how long its text is at most, so that the buffer is known to hold all of it.
#![tactic(auto)]

ghost use Rattle.std.specs.Prelude.{◌≡◌, ◌++◌, ◌*◌, ◌≤◌, ◌<◌, length, take};
ghost use Rattle.text.specs.Put.{Put, Starts};
ghost use Rattle.text.specs.Spelled.{spelled};
ghost use Rattle.register.specs.Layout.{cases_held, events_held};
ghost use Rattle.line.specs.Line.{takes};
ghost use Rattle.lines.specs.Lines.{file_line, record_line, record_lines, answer_bytes, standing_line, printed_for, printed};
ghost use Rattle.lines.specs.UpTo.{PutUpTo, most_file, most_record, most_standing, most_printed};

use line::{Refusal, Request};
use register::counts::count;
use text::{put_decimal, put_text};

// (Numbers by `put_decimal`: its contract says their bytes, and `format!` would take memory.)
fn put_named(out: &mut [u8], at: usize, word: &[u8], n: u64) -> usize
    ensures { Put at (word.now ++ spelled n) out.old out.new result }
{
    let next = put_text(out, at, word);
    put_decimal(out, next, n)
}

// L5: "`file`, the answer, the record number, and the three counts, each behind its name"
fn file_line(
    out: &mut [u8],
    at: usize,
    answer: u64,
    number: u64,
    records: u64,
    accepted: u64,
    discarded: u64,
) -> usize
    ensures { PutUpTo most_file at (file_line answer number records accepted discarded) out.old out.new result }
{
    let a = put_named(out, at, b"file ", answer);
    let b = put_named(out, a, b" ", number);
    let c = put_named(out, b, b" records ", records);
    let d = put_named(out, c, b" accepted ", accepted);
    let e = put_named(out, d, b" discarded ", discarded);
    put_text(out, e, b"\n")
}

fn record_line(out: &mut [u8], at: usize, number: u64, answer: u64) -> usize
    ensures { Put at (record_line number answer) out.old out.new result }
{
    let a = put_decimal(out, at, number);
    let b = put_named(out, a, b" ", answer);
    put_text(out, b, b"\n")
}

// L6: "a line for each record: its number and its answer", records counted from 1
fn record_lines(out: &mut [u8], at: usize, answers: &[u8], records: u64) -> usize
    requires { length answers.now ≤ answer_bytes }
    ensures { PutUpTo (most_record * answer_bytes) at (record_lines 1 (take records answers.now)) out.old out.new result }
{
    let told = &answers[..(records as usize).min(answers.len())];
    let mut next = at;
    for (i, answer) in told.iter().enumerate() {
        next = record_line(out, next, i as u64 + 1, *answer as u64);
    }
    next
}

// L7: "`cases` with the cases standing and `events` with the events standing"
fn standing_line(out: &mut [u8], at: usize, reg: &[u8]) -> usize
    requires { 4 ≤ length reg.now }
    ensures { PutUpTo most_standing at (standing_line (cases_held reg.now) (events_held reg.now)) out.old out.new result }
{
    let a = put_named(out, at, b"cases ", count(reg, 0) as u64);
    let b = put_named(out, a, b" events ", count(reg, 2) as u64);
    put_text(out, b, b"\n")
}

// L4: "an emptied register of 14,564 bytes (R is 151) with an answer list of 512 bytes"
fn submit(out: &mut [u8], sub: &[u8], asked: Request) -> usize
    ensures { PutUpTo most_printed 0 (printed_for (takes asked.track asked.year asked.quarter sub.now)) out.old out.new result }
{
    let mut reg = [0u8; 14564];
    let mut answers = [0u8; 512];
    let mut report = [0u64; 4];
    exports::siad_empty(&mut reg);
    let answer = exports::siad_submit(
        sub,
        asked.track,
        asked.year,
        asked.quarter,
        &mut reg,
        &mut answers,
        &mut report,
    );
    let a = file_line(out, 0, answer, report[0], report[1], report[2], report[3]);
    let b = record_lines(out, a, &answers, report[1]);
    standing_line(out, b, &reg)
}

// The three ways of `request` (crate line), each as L2 to L8 have it printed.
fn put_answer(out: &mut [u8], input: &[u8]) -> usize
    ensures { PutUpTo most_printed 0 (printed input.now) out.old out.new result }
{
    match line::asked_by(input) {
        Ok(asked) => submit(out, &input[asked.body..], asked),
        Err(Refusal::Line) => put_text(out, 0, b"line\n"),
        Err(Refusal::Long) => put_text(out, 0, b"long\n"),
    }
}

// The whole program, from what it reads to what it prints; the buffer has room for the longest output.
pub fn answer(input: &[u8], out: &mut [u8; 4258]) -> usize
    ensures { Starts (printed input.now) out.old out.new result }
{
    put_answer(out, input)
}
