// Holds each file that its arguments name against the shape of its track, which the name's first byte says.
#![tactic(auto)]

use markup::bytes::peek;
use markup::file::document;
use schema::file::{ShapeFault, place_of};
use std::rt::Files;
use std::{env, io};
use streams::read_file;
use tracks::shapes::shape_of;

fn say(rt: &impl Print, s: &[u8], shape: Result<usize, ShapeFault>) -> io::Result<()> {
    match shape {
        Ok(n) => println!(rt; ": of the shape, {n} records"),
        Err(ShapeFault::Faulty { number, from }) => {
            let place = place_of(s.len(), from);
            println!(rt; ": at fault, record {number}, place {place}")
        }
        Err(ShapeFault::Crowded(number)) => println!(rt; ": too many events, record {number}"),
    }
}

fn judge(rt: &impl Print, track: u64, s: &[u8]) -> io::Result<()> {
    match document(s) {
        Some(root) => say(rt, s, shape_of(track, s, root.at)),
        None => println!(rt; ": not in the markup"),
    }
}

fn track_of(name: &[u8]) -> u64 {
    if peek(name, 0) == b'1' {
        return 1;
    }
    2
}

// As in markup_cases and register_cases, whose lines tell of it: the printing in the midst is another.
fn one(rt: &(impl Files + Print), path: &str) -> io::Result<()> {
    print!(rt; "{path}")?;
    let mut text = [0u8; 65536];
    match read_file(rt, path, &mut text)? {
        Some(long) => judge(rt, track_of(path.as_bytes()), &text[..long]),
        None => println!(rt; ": missing"),
    }
}

fn main(rt: HostRuntime) -> io::Result<()> {
    for path in env::args(&rt)?.skip(1) {
        one(&rt, path.as_str())?;
    }
    Ok(())
}
