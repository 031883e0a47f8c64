// Rows found by binary search, by the first bits of a probe row.
// Probe, its bits and the rows' width stay parameters with a clause: what `place` answers is a bound on a key or on one more than a key, by t, and a struct of
// the three would be made anew for each of a caller's two searches, at a width that is a constant there. So do the bounds of a search: another span at each.
ghost use Rattle.std.specs.Prelude.{◌≡◌, ℕ, Bool, ◌&&◌, ◌+◌, ◌*◌, ◌≤◌, ◌<◌, ltb, eqb, length};
ghost use Rattle.rows.specs.Ordering.{order_of};
ghost use Rattle.register.specs.Gap.{field_in};
ghost use Rattle.register.specs.Search.{key_at, probe_key, Placed, Ranged};

use crate::row::row_at;
use rows::reader::{compare, get};
use std::cmp::Ordering;

// How the key of row i stands to the probe's.
pub fn compare_row(reg: &[u8], w: usize, i: usize, probe: &[u8], kbits: usize) -> Ordering
    requires { (4 + w * (i + 1) ≤ length reg.now) × (length probe.now ≡ w) × (kbits ≤ 8 * w) }
    ensures { result ≡ order_of (key_at w kbits reg.now i) (probe_key w kbits probe.now) }
{
    compare(row_at(reg, w, i), probe, kbits)
}

// Whether the key of row i is below the probe's, or, with t 1, not above it.
pub fn below(reg: &[u8], w: usize, i: usize, probe: &[u8], kbits: usize, t: usize) -> bool
    requires { (4 + w * (i + 1) ≤ length reg.now) × (length probe.now ≡ w) × (kbits ≤ 8 * w) × (t ≤ 1) }
    ensures { result ≡ ltb (key_at w kbits reg.now i) (probe_key w kbits probe.now + t) }
{
    match compare_row(reg, w, i, probe, kbits) {
        Ordering::Less => true,
        Ordering::Equal => 0 < t,
        Ordering::Greater => false,
    }
}

// The first place from lo up to hi that is not below, or hi, by halving what is left: of numbers that don't fall, where `below` tells which are below v. By hand:
// `partition_point` is a slice's, and the bytes of rows are no slice of rows.
fn halved<F: Fn(usize) -> bool>(lo: usize, hi: usize, below: F) -> usize
    requires order { lo ≤ hi }
    requires callable { (i : ℕ) → lo ≤ i → i < hi → F.pre below i }
    ensures { (f : ℕ → ℕ) (v : ℕ) → ((i : ℕ) (told : Bool) → lo ≤ i → i < hi → F.post below i told → told ≡ ltb (f i) v) → Placed f v lo hi result }
{
    let mut a = lo;
    let mut e = hi;
    while a < e {
        let mid = a + (e - a) / 2;
        if below(mid) {
            a = mid + 1;
        } else {
            e = mid;
        }
    }
    a
}

// The first row from lo up to hi whose key is not below the probe's, or, with t 1, above it; or hi.
pub fn place(
    reg: &[u8],
    w: usize,
    lo: usize,
    hi: usize,
    probe: &[u8],
    kbits: usize,
    t: usize,
) -> usize
    requires { (lo ≤ hi) × (4 + w * hi ≤ length reg.now) × (length probe.now ≡ w) × (kbits ≤ 8 * w) × (t ≤ 1) }
    ensures { Placed (key_at w kbits reg.now) (probe_key w kbits probe.now + t) lo hi result }
{
    halved(lo, hi, |i| below(reg, w, i, probe, kbits, t))
}

// Whether row i, which is at most hi, has the probe's key.
pub fn stands(reg: &[u8], w: usize, i: usize, hi: usize, probe: &[u8], kbits: usize) -> bool
    requires { (4 + w * hi ≤ length reg.now) × (length probe.now ≡ w) × (kbits ≤ 8 * w) }
    ensures { result ≡ ltb i hi && eqb (key_at w kbits reg.now i) (probe_key w kbits probe.now) }
{
    i < hi && compare_row(reg, w, i, probe, kbits).is_eq()
}

// The rows from lo up to hi.
#[derive(Clone, Copy)]
pub struct Span {
    pub lo: usize,
    pub hi: usize,
}

// The rows with the probe's key among the rows from lo up to hi: with a case's key, its events.
pub fn case_range(reg: &[u8], w: usize, lo: usize, hi: usize, probe: &[u8], kbits: usize) -> Span
    requires { (lo ≤ hi) × (4 + w * hi ≤ length reg.now) × (length probe.now ≡ w) × (kbits ≤ 8 * w) }
    ensures { Ranged (key_at w kbits reg.now) (probe_key w kbits probe.now) lo hi result.lo result.hi }
{
    let a = place(reg, w, lo, hi, probe, kbits, 0);
    // None has the key: one comparison tells, in place of a second search.
    if !stands(reg, w, a, hi, probe, kbits) {
        return Span { lo: a, hi: a };
    }
    let e = place(reg, w, a, hi, probe, kbits, 1);
    Span { lo: a, hi: e }
}

// The `wide` bits after the first `at` of row i.
pub fn field_in(reg: &[u8], w: usize, i: usize, at: usize, wide: usize) -> u64
    requires { (4 + w * (i + 1) ≤ length reg.now) × (wide ≤ 56) × (at + wide ≤ 8 * w) }
    ensures { result ≡ field_in w at wide reg.now i }
{
    get(row_at(reg, w, i), at, wide)
}

// The first row from lo up to hi whose `wide` bits after the first `at` are not below v, or hi.
pub fn place_by(reg: &[u8], w: usize, lo: usize, hi: usize, at: usize, wide: usize, v: u64) -> usize
    requires { (lo ≤ hi) × (4 + w * hi ≤ length reg.now) × (wide ≤ 56) × (at + wide ≤ 8 * w) }
    ensures { Placed (field_in w at wide reg.now) v lo hi result }
{
    halved(lo, hi, |i| field_in(reg, w, i, at, wide) < v)
}
