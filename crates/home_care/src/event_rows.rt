// An event looked for among its case's rows.
ghost use Rattle.std.specs.Prelude.{◌+◌, ◌*◌, ◌≤◌, length};
ghost use Rattle.home_care.specs.Row.{row_bytes};
ghost use Rattle.home_care.specs.EventRows.{OwnPlaced};

use crate::event_bits::own_bits_of;
use crate::layout::{CASE_KEY, EVENT_BITS, ROW};
use register::search::place_by;

// The first of the case's rows from lo up to hi whose own key is not below the event's, or hi: by as many bits as the event's own key has.
pub fn place_event(reg: &[u8], lo: usize, hi: usize, e: u64) -> usize
    requires { (lo ≤ hi) × (4 + row_bytes * hi ≤ length reg.now) }
    ensures { OwnPlaced reg.now e lo hi result }
{
    let bits = own_bits_of(e);
    place_by(reg, ROW, lo, hi, CASE_KEY, bits, e >> (EVENT_BITS - bits))
}
