// Reads each file that its arguments name, and says whether it is in the markup.
#![tactic(auto)]

use std::rt::Files;
use std::{env, io};
use streams::read_file;

fn said(rt: &impl Print, s: &[u8]) -> io::Result<()> {
    if markup::file::in_markup(s) {
        println!(rt; ": in the markup")
    } else {
        println!(rt; ": not")
    }
}

fn one(rt: &(impl Files + Print), path: &str) -> io::Result<()> {
    print!(rt; "{path}")?;
    let mut text = [0u8; 65536];
    match read_file(rt, path, &mut text)? {
        Some(long) => said(rt, &text[..long]),
        None => println!(rt; ": missing"),
    }
}

fn main(rt: HostRuntime) -> io::Result<()> {
    for path in env::args(&rt)?.skip(1) {
        one(&rt, path.as_str())?;
    }
    Ok(())
}
