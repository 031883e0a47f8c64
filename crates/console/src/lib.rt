// The program's ends: what it reads goes to `lines`, and the bytes that come back are written. `run` reads any reader, so that the program and its cases
// share it.
#![tactic(auto)]

ghost use Rattle.std.specs.Prelude.{take, OnOk, IfSome};
ghost use Rattle.std.specs.Io.KnownBytes.{Appends};
ghost use Rattle.lines.specs.Lines.{printed};

use std::io;
use std::io::{Read, Write};

// A first line has 15 bytes at most (`ok_line`), so the buffer holds it, the longest submission and the byte that makes it too long. Where the reader's
// bytes are known, what is written is `printed` of them.
pub fn run<R: Read, W: Write>(input: &mut R, output: &mut W) -> io::Result<()>
    ensures { OnOk result (IfSome (R.remaining input.old) (λ xs. Appends (W.contents output.old) (W.contents output.new) (printed (take 49168 xs)))) }
{
    let mut bytes = [0u8; 49168];
    let n = streams::read_full(input, &mut bytes)?;
    let mut out = [0u8; 4258];
    let r = lines::answer(&bytes[..n], &mut out);
    output.write_all(&out[..r])
}
