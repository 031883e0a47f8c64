// A script's words.
ghost use Rattle.std.specs.Prelude.{◌≤◌};

// No number in a script is above this: the longest submission that can be lent.
const MOST: u32 = 1048577;

// A line's word, counted from 0; empty where the line has fewer.
pub fn word(line: &[u8], k: usize) -> &[u8] {
    line.split(|b| *b == b' ').nth(k).unwrap_or(&[])
}

// A word as a number, at most the largest.
pub fn number(line: &[u8], k: usize) -> u64
    ensures { result ≤ 1048577 }
{
    codes::digits::read_digits(word(line, k), MOST)
        .number
        .min(1048577)
}

// The same, as a length.
pub fn size(line: &[u8], k: usize) -> usize
    ensures { result ≤ 1048577 }
{
    number(line, k) as usize
}
