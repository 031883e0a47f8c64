// Reads each register image that its arguments name, and prints whether it is sound and where a case stands; then fills and clears a register of its own.
// The images were packed by another tool (docs/IMAGES.md).
#![tactic(auto)]

ghost use Rattle.std.specs.Prelude.{◌≤◌};

use home_care::layout::{CASE_KEY, ROW};
use markup::bytes::part;
use std::rt::Files;
use std::{env, io};
use streams::read_file;

fn answer(rt: &impl Print, name: &str, number: u64) -> io::Result<()> {
    println!(rt; "{name} {number}")
}

// The case of region 010, ASL 101, 2018-05-01, Id_Rec of 88 letters A: answer and place.
fn find(rt: &impl Print, reg: &[u8]) -> io::Result<()> {
    let id = [b'A'; 88];
    let mut place: u64 = 77;
    let found = exports::siad_find(reg, b"010", b"101", b"2018-05-01", &id, &mut place);
    println!(rt; "find {found} {place}")
}

fn image(rt: &impl Print, reg: &[u8]) -> io::Result<()> {
    let sound = exports::siad_sound(reg);
    print!(rt; ": sound {sound} ")?;
    find(rt, reg)
}

// As in markup_cases and shape_cases: a common one would take the printing in its midst as a closure, with the clause that says when that may be called.
fn one(rt: &(impl Files + Print), path: &str) -> io::Result<()> {
    print!(rt; "{path}")?;
    let mut text = [0u8; 65536];
    match read_file(rt, path, &mut text)? {
        Some(long) => image(rt, &text[..long]),
        None => println!(rt; ": missing"),
    }
}

fn sound(rt: &impl Print, reg: &[u8]) -> io::Result<()> {
    answer(rt, "sound", exports::siad_sound(reg))
}

fn counts(rt: &impl Print, reg: &[u8]) -> io::Result<()> {
    if reg.len() < 4 {
        return Ok(());
    }
    answer(rt, "cases", register::counts::count(reg, 0) as u64)?;
    answer(rt, "events", register::counts::count(reg, 2) as u64)
}

// A submission of one record for the second quarter of 2018: whether the record is accepted.
fn submit(reg: &mut [u8], track: u64, sub: &[u8]) -> bool {
    let mut answers = [0u8; 1];
    let mut report = [0u64; 4];
    let r = exports::siad_submit(sub, track, 2018, 2, reg, &mut answers, &mut report);
    r == 0 && report[2] == 1
}

// Whether nothing stands by the count at two bytes.
fn none(reg: &[u8], at: usize) -> bool
    requires { at ≤ 2 }
{
    4 <= reg.len() && register::counts::count(reg, at) == 0
}

// Any bytes, emptied: sound, and no case stands.
fn begin(rt: &impl Print, reg: &mut [u8]) -> io::Result<()> {
    answer(rt, "fresh, sound", exports::siad_sound(reg))?;
    answer(rt, "empty", exports::siad_empty(reg))?;
    sound(rt, reg)?;
    find(rt, reg)
}

// Two submissions put in the case and the event.
fn fill(rt: &impl Print, reg: &mut [u8], case: &[u8], event: &[u8]) -> io::Result<()> {
    answer(rt, "put_case", u64::from(submit(reg, 1, case)))?;
    sound(rt, reg)?;
    find(rt, reg)?;
    answer(rt, "put_event", u64::from(submit(reg, 2, event)))?;
    sound(rt, reg)?;
    counts(rt, reg)
}

fn remove(reg: &mut [u8], row: &[u8]) {
    if row.len() != ROW {
        return;
    }
    register::remove::remove_case(reg, ROW, CASE_KEY, row);
}

// The case's row takes it out, and its event with it.
fn clear(rt: &impl Print, reg: &mut [u8], case: &[u8]) -> io::Result<()> {
    remove(reg, case);
    answer(rt, "drop_event", u64::from(none(reg, 2)))?;
    answer(rt, "drop_case", u64::from(none(reg, 0)))?;
    sound(rt, reg)?;
    answer(rt, "zero", u64::from(home_care::texts::all_zero(reg)))
}

// Room for three rows.
fn story(rt: &impl Print, put_case: &[u8], put_event: &[u8], case: &[u8]) -> io::Result<()> {
    let mut reg = [255u8; 292];
    begin(rt, &mut reg)?;
    fill(rt, &mut reg, put_case, put_event)?;
    clear(rt, &mut reg, case)?;
    let mut short = [255u8; 3];
    answer(rt, "three bytes, empty", exports::siad_empty(&mut short))
}

// The bytes of a file, in a lent buffer.
fn read<'a>(rt: &(impl Files + Print), path: &str, buf: &'a mut [u8]) -> io::Result<&'a [u8]> {
    match read_file(rt, path, buf)? {
        Some(long) => Ok(&buf[..long]),
        None => {
            println!(rt; "missing")?;
            Ok(&buf[..0])
        }
    }
}

fn from_files(rt: &(impl Files + Print)) -> io::Result<()> {
    let (mut first, mut second, mut third) = ([0u8; 4096], [0u8; 4096], [0u8; 4096]);
    let put_case = read(rt, "put_case", &mut first)?;
    let put_event = read(rt, "put_event", &mut second)?;
    read(rt, "one_case", &mut third)?;
    story(rt, put_case, put_event, part(&third, 4, 100))
}

fn main(rt: HostRuntime) -> io::Result<()> {
    for path in env::args(&rt)?.skip(1) {
        one(&rt, path.as_str())?;
    }
    from_files(&rt)
}
