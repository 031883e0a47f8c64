// A record's events taken out: one move for all of them.
ghost use Rattle.std.specs.Prelude.{◌≡◌, true, List, ℕ, ◌+◌, ◌-◌, ◌*◌, ◌^◌, ◌≤◌, ◌<◌, ltb, length};
ghost use Rattle.laws.specs.Lists.{all};
ghost use Rattle.register.specs.Gap.{Gap};
ghost use Rattle.register.specs.Moves.{removed};
ghost use Rattle.register.specs.Search.{probe_key};
ghost use Rattle.home_care.specs.Row.{row_bytes, key_bits, event_bits};
ghost use Rattle.apply.specs.Events.{AllOut};
ghost use Rattle.register.specs.View.{most_counted};

use crate::order::next_below;
use home_care::event_bits::event_key_of;
use home_care::event_rows::place_event;
use home_care::layout::{CASE_KEY, OWN_KEYS, ROW};
use register::counts::{count, set_count};
use register::moving::{remove_rows, shift_right};
use register::room::room_for;
use register::search::case_range;

// A gap of j rows in front of row i takes row r in: the rows between go on through the gap.
fn widen(reg: &mut [u8], r: usize, i: usize, j: usize)
    requires { (r < i) × (i + j < most_counted) × (4 + row_bytes * (i + j) ≤ length reg.old) }
    ensures { (n : ℕ) (a : List ℕ) → i ≤ n → Gap row_bytes i j n a reg.old → Gap row_bytes r (j + 1) (n - 1) (removed row_bytes r n a) reg.new }
{
    let from = 4 + ROW * (r + 1);
    let to = 4 + ROW * (i + j);
    shift_right(&mut reg[from..to], ROW * j);
}

// The events of a record whose keys all stand (15), each once (22): each row joins a gap, the largest key first, and the rows behind the gap come back once.
pub fn cancel_events(reg: &mut [u8], probe: &[u8], evs: &[u64])
    requires { (length probe.now ≡ row_bytes) × (all (λ e. ltb e (2 ^ event_bits)) evs.now ≡ true) }
    ensures { AllOut (probe_key row_bytes key_bits probe.now) evs.now reg.old reg.new }
{
    if reg.len() < 4 {
        return;
    }
    let c = count(reg, 0);
    let n = c + count(reg, 2);
    if !room_for(reg, ROW, n) {
        return;
    }
    let span = case_range(reg, ROW, c, n, probe, CASE_KEY);
    let lo = span.lo;
    let mut i = span.hi;
    let mut bound = OWN_KEYS;
    for j in 0..evs.len() {
        // There is one, and its row stands in front of the gap.
        let Some(p) = next_below(evs, bound) else {
            return;
        };
        let e = evs[p];
        bound = event_key_of(e);
        let r = place_event(reg, lo, i, e);
        if i <= r {
            return;
        }
        widen(reg, r, i, j);
        i = r;
        set_count(reg, 2, n - c - (j + 1));
    }
    remove_rows(reg, ROW, i, evs.len(), n);
}
