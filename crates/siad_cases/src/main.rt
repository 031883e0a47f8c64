// Runs the program on each file that its arguments name, one after the other, the name first.
#![tactic(auto)]

use std::rt::Files;
use std::{env, fs, io};

fn one(rt: &(impl Files + Print), path: &str) -> io::Result<()> {
    println!(rt; "{path}:")?;
    let Ok(mut file) = fs::open(rt, path) else {
        return println!(rt; "missing");
    };
    console::run(&mut file, &mut io::writer(rt))
}

fn main(rt: HostRuntime) -> io::Result<()> {
    for path in env::args(&rt)?.skip(1) {
        one(&rt, path.as_str())?;
    }
    Ok(())
}
