// How many rows a register has room for (RULES.md, R4).
ghost use Rattle.std.specs.Prelude.{◌≡◌, ◌&&◌, ◌+◌, ◌-◌, ◌*◌, ◌/◌, ◌≤◌, min, leb, length};
ghost use Rattle.register.specs.RoomAndEmptying.{most_rows};

// No register has more rows.
pub const MOST: usize = 4096;

// Whether n rows may stand: at most 4,096, and they end within the register.
pub fn room_for(reg: &[u8], w: usize, n: usize) -> bool
    requires { w ≤ 65536 }
    ensures { result ≡ leb n most_rows && leb (4 + w * n) (length reg.now) }
{
    n <= MOST && 4 + w * n <= reg.len()
}

// The rows of w bytes that a register of that many bytes has room for.
pub fn room_of(w: usize, len: usize) -> usize
    requires { 1 ≤ w }
    ensures { (result ≡ min most_rows ((len - 4) / w)) × (result ≤ most_rows) }
{
    MOST.min(len.saturating_sub(4) / w)
}
