// A script's commands: what each lends to the exported calls.
ghost use Rattle.std.specs.Prelude.{◌≤◌, ◌<◌, length, IfOk};

use crate::shown;
use crate::words::{number, size, word};
use home_care::layout::ROW;
use markup::bytes::part;
use std::rt::Files;
use std::{io, str};
use streams::read_file;

// What is lent to be written holds this before.
const BEFORE: u8 = 77;

// How many bytes of the register's buffer, of an answer list and of the output's buffer are lent, and how many of the output's the file has that was written last.
// They stand beside the buffers (tried: with the buffers in one struct two of them can't be lent to a call at once).
#[derive(Clone, Copy)]
pub struct Held {
    pub register: usize,
    pub list: usize,
    pub output: usize,
    pub file: usize,
}

// A track and a period, as a line says them from a word on.
#[derive(Clone, Copy)]
struct Period {
    track: u64,
    year: u64,
    quarter: u64,
}

impl Period {
    fn of(line: &[u8], k: usize) -> Period
        requires { k < 8 }
    {
        Period {
            track: number(line, k),
            year: number(line, k + 1),
            quarter: number(line, k + 2),
        }
    }

    // Of what was written, which is of Track 2.
    fn undoing(line: &[u8]) -> Period {
        Period {
            track: 2,
            year: number(line, 1),
            quarter: number(line, 2),
        }
    }
}

// The bytes of a file, into a lent buffer: how many.
pub fn read(rt: &(impl Files + Print), path: &[u8], buf: &mut [u8]) -> io::Result<usize>
    ensures { IfOk result (λ n. n ≤ length buf.new) }
{
    if let Ok(path) = str::from_utf8(path)
        && let Some(n) = read_file(rt, path, buf)?
    {
        return Ok(n);
    }
    println!(rt; "missing")?;
    Ok(0)
}

// The answer list has as many bytes as the script lends of the buffer. No number of the report is 0 before, so that the call must have said it.
fn submit(
    rt: &impl Print,
    sub: &[u8],
    period: Period,
    list: usize,
    reg: &mut [u8],
) -> io::Result<()> {
    let mut answers = [0u8; 4096];
    let mut report = [77u64; 5];
    let Some(lent) = answers.get_mut(..list) else {
        return println!(rt; "no list so long");
    };
    let answer = exports::siad_submit(
        sub,
        period.track,
        period.year,
        period.quarter,
        reg,
        lent,
        &mut report,
    );
    shown::submitted(rt, answer, &report, &answers, reg)
}

fn submit_file(
    rt: &(impl Files + Print),
    line: &[u8],
    list: usize,
    reg: &mut [u8],
    sub: &mut [u8],
) -> io::Result<()> {
    let n = read(rt, word(line, 4), sub)?;
    submit(rt, &sub[..n], Period::of(line, 1), list, reg)
}

// With blanks behind the file, up to so many bytes.
fn submit_padded(
    rt: &(impl Files + Print),
    line: &[u8],
    list: usize,
    reg: &mut [u8],
    sub: &mut [u8],
) -> io::Result<()> {
    let n = read(rt, word(line, 5), sub)?;
    sub[n..].fill(b' ');
    submit(
        rt,
        part(sub, 0, size(line, 1)),
        Period::of(line, 2),
        list,
        reg,
    )
}

// With so many of eight numbers as the report.
fn report(
    rt: &(impl Files + Print),
    line: &[u8],
    list: usize,
    reg: &mut [u8],
    sub: &mut [u8],
) -> io::Result<()> {
    let n = read(rt, word(line, 5), sub)?;
    let period = Period::of(line, 2);
    let mut answers = [0u8; 4096];
    let mut report = [77u64; 8];
    let Some(list) = answers.get_mut(..list) else {
        return println!(rt; "no list so long");
    };
    let Some(numbers) = report.get_mut(..size(line, 1)) else {
        return println!(rt; "no report so long");
    };
    let answer = exports::siad_submit(
        &sub[..n],
        period.track,
        period.year,
        period.quarter,
        reg,
        list,
        numbers,
    );
    shown::reported(rt, answer, &report, reg)
}

// An Id_Rec of one character is written for 88 of it.
fn in_full<'a>(id: &'a [u8], whole: &'a mut [u8; 88]) -> &'a [u8] {
    if let [b] = id {
        whole.fill(*b);
        whole
    } else {
        id
    }
}

// The case of the line's texts: answer and place.
fn find(rt: &impl Print, line: &[u8], reg: &[u8]) -> io::Result<()> {
    let mut whole = [0u8; 88];
    let id = in_full(word(line, 4), &mut whole);
    let mut place: u64 = 0;
    let answer = exports::siad_find(
        reg,
        word(line, 1),
        word(line, 2),
        word(line, 3),
        id,
        &mut place,
    );
    shown::place(rt, answer, place)
}

// The evaluation of the line's case on its day: answer and fields.
fn evaluation(rt: &impl Print, line: &[u8], reg: &[u8]) -> io::Result<()> {
    let mut whole = [0u8; 88];
    let id = in_full(word(line, 4), &mut whole);
    let mut fields = [BEFORE; 11];
    let answer = exports::siad_evaluation(
        reg,
        word(line, 1),
        word(line, 2),
        word(line, 3),
        id,
        word(line, 5),
        &mut fields,
    );
    shown::evaluation(rt, answer, &fields)
}

// A cancellation file of the line's texts, for its quarter, into an output that is blank before: answer and length. The length isn't 0 before, so that the call
// must have said it.
fn cancel(rt: &impl Print, line: &[u8], reg: &[u8], out: &mut [u8]) -> io::Result<usize> {
    out.fill(b' ');
    let mut whole = [0u8; 88];
    let id = in_full(word(line, 5), &mut whole);
    let mut length: u64 = 77;
    let answer = exports::siad_cancel_file(
        reg,
        word(line, 2),
        word(line, 3),
        word(line, 4),
        id,
        number(line, 6),
        number(line, 7),
        out,
        &mut length,
    );
    shown::length(rt, answer, length)?;
    Ok(length as usize)
}

// The output has as many bytes as the script lends of the buffer.
fn write(
    rt: &impl Print,
    line: &[u8],
    held: &mut Held,
    reg: &[u8],
    out: &mut [u8],
) -> io::Result<()> {
    let output = size(line, 1);
    let Some(out) = out.get_mut(..output) else {
        return println!(rt; "no output so long");
    };
    held.file = cancel(rt, line, reg, out)?;
    held.output = output;
    Ok(())
}

// Whether the output that was lent is this file, and blank behind it as before.
fn compare(
    rt: &(impl Files + Print),
    path: &[u8],
    held: Held,
    sub: &mut [u8],
    out: &[u8],
) -> io::Result<()> {
    let n = read(rt, path, sub)?;
    let written = (n == held.file) & (&sub[..n] == part(out, 0, n));
    let blank = part(out, n, held.output).iter().all(|b| *b == b' ');
    let answer = if written & blank { "same" } else { "differs" };
    println!(rt; "{answer}")
}

// The calls, on the register that is lent.
fn call(
    rt: &(impl Files + Print),
    line: &[u8],
    held: &mut Held,
    reg: &mut [u8],
    sub: &mut [u8],
    out: &mut [u8],
) -> io::Result<()> {
    let list = held.list;
    match word(line, 0) {
        b"cancel" => write(rt, line, held, reg, out),
        b"submit" => submit_file(rt, line, list, reg, sub),
        b"padded" => submit_padded(rt, line, list, reg, sub),
        b"report" => report(rt, line, list, reg, sub),
        b"undo" => submit(
            rt,
            part(out, 0, held.file),
            Period::undoing(line),
            list,
            reg,
        ),
        b"text" => compare(rt, word(line, 1), *held, sub, out),
        b"sound" => shown::answer(rt, exports::siad_sound(reg)),
        b"find" => find(rt, line, reg),
        b"evaluation" => evaluation(rt, line, reg),
        b"empty" => {
            shown::answer(rt, exports::siad_empty(reg))?;
            shown::standing(rt, reg)
        }
        b"#" => Ok(()),
        _ => println!(rt; "unknown"),
    }
}

// A register of so many zero bytes, as far as the buffer goes.
fn zeros(n: usize, reg: &mut [u8]) -> usize
    ensures { result ≤ length reg.new }
{
    exports::siad_empty(reg);
    n.min(reg.len())
}

fn load(rt: &(impl Files + Print), path: &[u8], reg: &mut [u8]) -> io::Result<usize>
    ensures { IfOk result (λ n. n ≤ length reg.new) }
{
    exports::siad_empty(reg);
    read(rt, path, reg)
}

// The register that is held into a new one, of so many bytes of the submission's buffer, and held from then on. A new one that was refused must be as it was.
fn convert(
    rt: &impl Print,
    n: usize,
    held: &mut Held,
    reg: &mut [u8],
    sub: &mut [u8],
) -> io::Result<()> {
    if (sub.len() < n) | (reg.len() < n) {
        return println!(rt; "no register so long");
    }
    let Some(old) = reg.get(..held.register) else {
        return Ok(());
    };
    let new = &mut sub[..n];
    new.fill(BEFORE);
    let answer = exports::siad_convert(old, new);
    if answer != 0 {
        return shown::refused(rt, answer, new.iter().all(|b| *b == BEFORE));
    }
    shown::converted(rt)?;
    exports::siad_empty(reg);
    reg[..n].copy_from_slice(new);
    held.register = n;
    Ok(())
}

// A line's command, and what is lent from then on.
pub fn command(
    rt: &(impl Files + Print),
    line: &[u8],
    held: &mut Held,
    reg: &mut [u8],
    sub: &mut [u8],
    out: &mut [u8],
) -> io::Result<()> {
    shown::echo(rt, line)?;
    match word(line, 0) {
        b"rows" => held.register = zeros(4 + ROW * size(line, 1), reg),
        b"bytes" => held.register = zeros(size(line, 1), reg),
        b"load" => held.register = load(rt, word(line, 1), reg)?,
        b"list" => held.list = size(line, 1),
        b"convert" => convert(rt, size(line, 1), held, reg, sub)?,
        _ => {
            if let Some(reg) = reg.get_mut(..held.register) {
                call(rt, line, held, reg, sub, out)?;
            }
        }
    }
    Ok(())
}
