// A part of the register moved on, moved back and cleared. It is lent from a row on: earlier rows are untouched by construction.
// How far a move goes is bounded by the part that is lent, from one call to the next another: no type holds that.
ghost use Rattle.std.specs.Prelude.{◌≡◌, ◌++◌, ◌+◌, ◌-◌, ◌*◌, ◌≤◌, ◌<◌, length, take, drop, replicate};
ghost use Rattle.register.specs.Moves.{closed_up, removed, removed_rows};

// Moves each byte of the part w places on; the last w go, and the first w stay.
pub fn shift_right(part: &mut [u8], w: usize)
    requires { w ≤ length part.old }
    ensures { part.new ≡ take w part.old ++ take (length part.old - w) part.old }
{
    let kept = part.len() - w;
    part.copy_within(..kept, w);
}

// The same by j rows of w bytes.
// One row stays a branch of its own: a move by a fixed distance is the C library's. Without it bench/'s moves_one takes 379 million instructions, with it 228.
pub fn shift_rows(part: &mut [u8], w: usize, j: usize)
    requires { w * j ≤ length part.old }
    ensures { part.new ≡ take (w * j) part.old ++ take (length part.old - w * j) part.old }
{
    if j == 1 {
        shift_right(part, w);
    } else {
        shift_right(part, w * j);
    }
}

// Writes the row over the part's first bytes.
pub fn put_row(part: &mut [u8], row: &[u8])
    requires { length row.now ≤ length part.old }
    ensures { part.new ≡ row.now ++ drop (length row.now) part.old }
{
    part[..row.len()].copy_from_slice(row);
}

// Moves each byte of the part w places back; the first w go, and the last w stay.
fn shift_left(part: &mut [u8], w: usize)
    requires { w ≤ length part.old }
    ensures { part.new ≡ drop w part.old ++ drop (length part.old - w) part.old }
{
    part.copy_within(w.., 0);
}

// Sets each byte of the part to 0.
pub fn clear(part: &mut [u8])
    ensures { part.new ≡ replicate (length part.old) 0 }
{
    part.fill(0);
}

// The part's own bytes without the first w, and then w zeros.
fn close_up(part: &mut [u8], w: usize)
    requires { w ≤ length part.old }
    ensures { part.new ≡ closed_up w part.old }
{
    shift_left(part, w);
    let end = part.len() - w;
    clear(&mut part[end..]);
}

// The same by j rows of w bytes, with a branch for one row as above.
fn close_rows(part: &mut [u8], w: usize, j: usize)
    requires { w * j ≤ length part.old }
    ensures { part.new ≡ closed_up (w * j) part.old }
{
    if j == 1 {
        close_up(part, w);
    } else {
        close_up(part, w * j);
    }
}

// Rows i up to i + j of n go, and zeros come in behind the others. The header stays.
pub fn remove_rows(reg: &mut [u8], w: usize, i: usize, j: usize, n: usize)
    requires { (i + j ≤ n) × (4 + w * n ≤ length reg.old) }
    ensures { reg.new ≡ removed_rows w i j n reg.old }
{
    let from = 4 + w * i;
    let to = 4 + w * n;
    close_rows(&mut reg[from..to], w, j);
}

// Row i of n goes.
pub fn remove_row(reg: &mut [u8], w: usize, i: usize, n: usize)
    requires { (i < n) × (4 + w * n ≤ length reg.old) }
    ensures { reg.new ≡ removed w i n reg.old }
{
    remove_rows(reg, w, i, 1, n);
}
