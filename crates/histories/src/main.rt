// Runs each script that its arguments name: several submissions on one register, with soundness, finding and emptying between them. Every answer comes from
// the exported calls. A script has one command a line, words with one space between; it is printed behind `> `, and its answer below it:
//   rows N, bytes N                        a register for N rows, of N bytes, all zero (at first: 4 bytes)
//   load FILE                              a register of the file's bytes
//   list N                                 an answer list of N bytes from here on (at first: 512)
//   submit TRACK YEAR QUARTER FILE         submits the file; the lines that the program prints, with 6 the place behind the first, then `sum`
//   padded N TRACK YEAR QUARTER FILE       the same, with blanks behind the file up to N bytes
//   report N TRACK YEAR QUARTER FILE       submits the file with the first N of eight numbers 77 as the report; the answer, all eight, and what stands
//   sound, empty, find REGION ASL DATE ID  the other calls; an ID of one character is that character 88 times
//   cancel N REGION ASL DATE ID YEAR QUARTER   writes a cancellation file into an output of N blanks; answer and length
//   text FILE                              whether that output is now the file's bytes and the blanks that were behind them: `same` or `differs`
//   undo YEAR QUARTER                      submits what was written as Track 2, as `submit` does
//   evaluation REGION ASL DATE ID DAY      the evaluation in force: answer and eleven numbers (77 before)
//   convert N                              converts into a new register of N bytes 77, held from then on; else whether these stayed
//   # ...                                  a comment
#![tactic(auto)]

mod calls;
mod shown;
mod words;

use calls::Held;
use std::rt::Files;
use std::{env, io};

// The lines of a script, one after the other, from a register of 4 bytes and the program's answer list.
fn run(
    rt: &(impl Files + Print),
    script: &[u8],
    reg: &mut [u8],
    sub: &mut [u8],
    out: &mut [u8],
) -> io::Result<()> {
    exports::siad_empty(reg);
    let mut held = Held {
        register: 4,
        list: 512,
        output: 0,
        file: 0,
    };
    for line in script.split_inclusive(|b| *b == b'\n') {
        let line = line.strip_suffix(b"\n").unwrap_or(line);
        calls::command(rt, line, &mut held, reg, sub, out)?;
    }
    Ok(())
}

fn one(
    rt: &(impl Files + Print),
    path: &str,
    reg: &mut [u8; 400000],
    sub: &mut [u8; 1048577],
    out: &mut [u8; 423766],
) -> io::Result<()> {
    println!(rt; "{path}:")?;
    let mut script = [0u8; 65536];
    let n = calls::read(rt, path.as_bytes(), &mut script)?;
    run(rt, &script[..n], reg, sub, out)
}

// The buffers are made once: a register of 4,096 rows of up to 97 bytes fits, the shortest submission that is too long, and the longest cancellation file.
fn main(rt: HostRuntime) -> io::Result<()> {
    let mut reg = [0u8; 400000];
    let mut sub = [0u8; 1048577];
    let mut out = [0u8; 423766];
    for path in env::args(&rt)?.skip(1) {
        one(&rt, path.as_str(), &mut reg, &mut sub, &mut out)?;
    }
    Ok(())
}
