// The program: standard input to standard output.
#![tactic(auto)]

use std::io;

fn main(rt: HostRuntime) -> io::Result<()> {
    console::run(&mut rt.reader(), &mut io::writer(&rt))
}
