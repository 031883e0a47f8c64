// Input read into lent buffers, for the programs: as much as a buffer holds, or as there is.
#![tactic(auto)]

ghost use Rattle.std.specs.Prelude.{◌≡◌, ◌+◌, ◌<◌, ◌≤◌, length, take, drop, IfOk, IfSome};
ghost use Rattle.std.specs.Io.KnownBytes.{Consumes, IsAtEnd};

use std::io::Read;
use std::rt::Files;
use std::{fs, io};

// One read, into the buffer from a place on.
fn read_more<R: Read>(reader: &mut R, buf: &mut [u8], at: usize) -> io::Result<usize>
    requires { at ≤ length buf.old }
    ensures fits { IfOk result (λ n. at + n ≤ length buf.new) }
    ensures front { take at buf.new ≡ take at buf.old }
    ensures bytes { IfOk result (λ n. Consumes (R.remaining reader.old) (R.remaining reader.new) (take n (drop at buf.new))) }
    ensures end { IfOk result (λ n. n ≡ 0 → at < length buf.old → IsAtEnd (R.remaining reader.new)) }
{
    reader.read(&mut buf[at..])
}

// Reads until the buffer is full or the input ends, and returns how many bytes it put at the start of the buffer. What is left of the input is not read.
pub fn read_full<R: Read>(reader: &mut R, buf: &mut [u8]) -> io::Result<usize>
    ensures bound { IfOk result (λ n. n ≤ length buf.new) }
    ensures bytes { IfOk result (λ n. IfSome (R.remaining reader.old) (λ xs. take n buf.new ≡ take (length buf.old) xs)) }
{
    let mut done = 0;
    for _ in 0..buf.len() {
        let n = read_more(reader, buf, done)?;
        if n == 0 {
            break;
        }
        done += n;
    }
    Ok(done)
}

// The bytes of a file, at the start of the buffer: how many, or `None` where it can't be opened.
pub fn read_file(files: &impl Files, path: &str, buf: &mut [u8]) -> io::Result<Option<usize>>
    ensures { IfOk result (λ read. IfSome read (λ n. n ≤ length buf.new)) }
{
    let Ok(mut file) = fs::open(files, path) else {
        return Ok(None);
    };
    Ok(Some(read_full(&mut file, buf)?))
}
