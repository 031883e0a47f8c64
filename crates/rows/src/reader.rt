// Fields read back out of a row, and rows compared by their first bits. How many bits a call reads is bounded in its clause: at each call it is another field.
ghost use Rattle.std.specs.Prelude.{◌≡◌, ◌+◌, ◌-◌, ◌*◌, ◌^◌, ◌≤◌, ◌<◌, length, take};
ghost use Rattle.rows.specs.Packing.{num, first_bits, HeldAt, each_at};
ghost use Rattle.rows.specs.Ordering.{order_of};

use std::cmp::Ordering;

// The bytes from `first` to `end`, at most eight, as a number.
fn word(row: &[u8], first: usize, end: usize) -> u64
    requires { (first ≤ end) × (end ≤ first + 8) × (end ≤ length row.now) }
    ensures { (result < 2 ^ (8 * (end - first))) × (num (take end row.now) ≡ num (take first row.now) * 2 ^ (8 * (end - first)) + result) }
{
    let mut acc = 0;
    for byte in &row[first..end] {
        acc = acc * 256 + u64::from(*byte);
    }
    acc
}

// The w bits after a row's first `at`.
pub fn get(row: &[u8], at: usize, w: usize) -> u64
    requires { (w ≤ 56) × (at + w ≤ 8 * length row.now) }
    ensures { HeldAt row.now at w result }
{
    let first = at / 8;
    let read = at % 8 + w;
    let bytes = (read + 7) / 8;
    let acc = word(row, first, first + bytes);
    (acc >> (8 * bytes - read)) % (1 << w)
}

pub fn order_of(x: u64, y: u64) -> Ordering
    ensures { result ≡ order_of x y }
{
    x.cmp(&y)
}

// How the first k bits of the row a stand to those of b: whole bytes, then what is left.
pub fn compare(a: &[u8], b: &[u8], k: usize) -> Ordering
    requires { (length b.now ≡ length a.now) × (k ≤ 8 * length a.now) }
    ensures { result ≡ order_of (first_bits k a.now) (first_bits k b.now) }
{
    let whole = k / 8;
    match a[..whole].cmp(&b[..whole]) {
        Ordering::Equal => order_of(get(a, 8 * whole, k % 8), get(b, 8 * whole, k % 8)),
        decided => decided,
    }
}

// The fields of w bits each after a row's first `at` bits, as many as `out` has bytes.
pub fn read_run(row: &[u8], at: usize, w: usize, out: &mut [u8])
    requires { (length row.now < 65536) × (w ≤ 8) × (at + w * length out.old ≤ 8 * length row.now) }
    ensures { out.new ≡ each_at (8 * length row.now - (at + w * length out.old)) (length out.old) w (num row.now) }
{
    for (i, value) in out.iter_mut().enumerate() {
        *value = get(row, at + w * i, w) as u8;
    }
}
