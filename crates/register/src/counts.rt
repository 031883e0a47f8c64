// The header's counts, two bytes each, most significant first.
ghost use Rattle.std.specs.Prelude.{◌≡◌, ◌+◌, ◌≤◌, ◌<◌, length, take, drop};
ghost use Rattle.rows.specs.Packing.{num};
ghost use Rattle.register.specs.Moves.{with_count};

// The count at two bytes.
pub fn count(reg: &[u8], at: usize) -> usize
    requires { at + 2 ≤ length reg.now }
    ensures { (result ≡ num (take 2 (drop at reg.now))) × (result < 65536) }
{
    usize::from(u16::from_be_bytes([reg[at], reg[at + 1]]))
}

pub fn set_count(reg: &mut [u8], at: usize, v: usize)
    requires { at + 2 ≤ length reg.old }
    ensures { reg.new ≡ with_count at v reg.old }
{
    reg[at..at + 2].copy_from_slice(&v.to_be_bytes()[6..]);
}
