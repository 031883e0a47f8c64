// A case and its events taken out, over rows of w bytes; the first kbits of a probe are its key.
ghost use Rattle.std.specs.Prelude.{◌≡◌, ◌+◌, ◌*◌, ◌≤◌, ◌<◌, length};
ghost use Rattle.register.specs.TakenOut.{CaseGone};
ghost use Rattle.register.specs.TakenOutBytes.{case_taken};

use crate::counts::{count, set_count};
use crate::moving::{remove_row, remove_rows};
use crate::room::room_for;
use crate::search::{Span, case_range, place, stands};

// Row i of c cases and the events from row lo up to hi go from n rows: every row behind them comes back once.
fn close_case(reg: &mut [u8], w: usize, i: usize, lo: usize, hi: usize, c: usize, n: usize)
    requires { (i < c) × (c ≤ lo) × (lo ≤ hi) × (hi ≤ n) × (4 + w * n ≤ length reg.old) }
    ensures { reg.new ≡ case_taken w i lo hi c n reg.old }
{
    // The rows between the case and its events close up first: the row that they free joins the events'.
    remove_row(reg, w, i, lo);
    remove_rows(reg, w, lo - 1, hi - lo + 1, n);
    set_count(reg, 0, c - 1);
    set_count(reg, 2, n - c - (hi - lo));
}

// The case with the probe's first kbits bits as its key goes, and all its events.
pub fn remove_case(reg: &mut [u8], w: usize, kbits: usize, probe: &[u8])
    requires { (w ≤ 65536) × (kbits ≤ 8 * w) × (length probe.now ≡ w) }
    ensures { CaseGone w kbits probe.now reg.old reg.new }
{
    if reg.len() < 4 {
        return;
    }
    let c = count(reg, 0);
    let n = c + count(reg, 2);
    if !room_for(reg, w, n) {
        return;
    }
    let i = place(reg, w, 0, c, probe, kbits, 0);
    if !stands(reg, w, i, c, probe, kbits) {
        return;
    }
    let Span { lo, hi } = case_range(reg, w, c, n, probe, kbits);
    close_case(reg, w, i, lo, hi, c, n);
}
