// What is printed. No contract can say what is written; the values are those of proved calls.
ghost use Rattle.std.specs.Prelude.{◌<◌};

use register::counts::count;
use std::fmt::Display;
use std::io;

// The largest prime below 2^56, so that 256 times a rest and a byte more fit 64 bits.
const PRIME: u64 = 72057594037927931;

// A line of a script, whose bytes need not be text.
pub fn echo(rt: &impl Print, line: &[u8]) -> io::Result<()> {
    rt.write_all(b"> ")?;
    rt.write_all(line)?;
    rt.write_all(b"\n")
}

pub fn answer(rt: &impl Print, n: u64) -> io::Result<()> {
    println!(rt; "answer {n}")
}

pub fn place(rt: &impl Print, answer: u64, at: u64) -> io::Result<()> {
    println!(rt; "answer {answer} place {at}")
}

pub fn length(rt: &impl Print, answer: u64, n: u64) -> io::Result<()> {
    println!(rt; "answer {answer} length {n}")
}

// Numbers, each behind a space, to the line's end.
fn numbers<N: Display + Copy + Drop>(rt: &impl Print, ns: &[N]) -> io::Result<()> {
    for n in ns {
        let n = *n;
        print!(rt; " {n}")?;
    }
    println!(rt; "")
}

// An answer and the eleven bytes of an evaluation.
pub fn evaluation(rt: &impl Print, answer: u64, fields: &[u8; 11]) -> io::Result<()> {
    print!(rt; "evaluation {answer}")?;
    numbers(rt, fields)
}

pub fn converted(rt: &impl Print) -> io::Result<()> {
    println!(rt; "convert 0")
}

// A conversion that was refused: whether the new register stayed.
pub fn refused(rt: &impl Print, answer: u64, stayed: bool) -> io::Result<()> {
    let new = if stayed { "same" } else { "differs" };
    println!(rt; "convert {answer} {new}")
}

// The bytes as one number, its rest by the prime.
fn sum(reg: &[u8]) -> u64
    ensures { result < 72057594037927931 }
{
    let mut s: u64 = 0;
    for b in reg {
        s = (s * 256 + u64::from(*b)) % PRIME;
    }
    s
}

// Cases and events standing, as the program has it, and the sum over all bytes; a register under 4 bytes has no counts.
pub fn standing(rt: &impl Print, reg: &[u8]) -> io::Result<()> {
    if 4 <= reg.len() {
        let cases = count(reg, 0);
        let events = count(reg, 2);
        println!(rt; "cases {cases} events {events}")?;
    }
    let sum = sum(reg);
    println!(rt; "sum {sum}")
}

fn file_line(rt: &impl Print, answer: u64, report: &[u64; 5]) -> io::Result<()> {
    let [number, records, accepted, discarded, _] = *report;
    println!(rt;
        "file {answer} {number} records {records} accepted {accepted} discarded {discarded}"
    )
}

// With 6 a place of 0 is one too; with another answer there is none, and one that was told would show.
fn place_line(rt: &impl Print, answer: u64, at: u64) -> io::Result<()> {
    if (answer == 6) | (at != 0) {
        println!(rt; "place {at}")?;
    }
    Ok(())
}

// Records are counted from 1.
fn record_lines(rt: &impl Print, answers: &[u8], records: u64) -> io::Result<()> {
    for (record, answer) in (1..=records).zip(answers) {
        println!(rt; "{record} {answer}")?;
    }
    Ok(())
}

// The answer, all the numbers, and what stands.
pub fn reported(rt: &impl Print, n: u64, report: &[u64], reg: &[u8]) -> io::Result<()> {
    answer(rt, n)?;
    print!(rt; "report")?;
    numbers(rt, report)?;
    standing(rt, reg)
}

// The lines that the program prints, with the place behind the first, and the sum.
pub fn submitted(
    rt: &impl Print,
    answer: u64,
    report: &[u64; 5],
    answers: &[u8],
    reg: &[u8],
) -> io::Result<()> {
    file_line(rt, answer, report)?;
    place_line(rt, answer, report[4])?;
    record_lines(rt, answers, report[1])?;
    standing(rt, reg)
}
