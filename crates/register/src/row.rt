// A row at its place in a register.
ghost use Rattle.std.specs.Prelude.{◌≡◌, ◌+◌, ◌*◌, ◌≤◌, length, take, drop};

// The bytes of row i, where rows have w bytes.
pub fn row_at(reg: &[u8], w: usize, i: usize) -> &[u8]
    requires { 4 + w * (i + 1) ≤ length reg.now }
    ensures { (result.now ≡ take w (drop (4 + w * i) reg.now)) × (length result.now ≡ w) }
{
    let start = 4 + w * i;
    let end = start + w;
    &reg[start..end]
}
