// A record's events over those with their keys.
ghost use Rattle.register.specs.Search.{probe_key};
ghost use Rattle.home_care.specs.Row.{row_bytes, key_bits};
ghost use Rattle.apply.specs.Events.{AllOver};

use crate::Listed;
use crate::event_row::set_row;
use crate::probe::Probe;
use home_care::event_rows::place_event;
use home_care::layout::{CASE_KEY, ROW};
use register::counts::count;
use register::room::room_for;
use register::search::case_range;

// The events of a record whose keys all stand (15): each is packed over the row with its key.
pub fn vary_events(reg: &mut [u8], probe: &Probe, said: &Listed)
    ensures { AllOver (probe_key row_bytes key_bits probe.now.row.now) said.now.evs.now said.now.kept.now reg.old reg.new }
{
    if reg.len() < 4 {
        return;
    }
    let c = count(reg, 0);
    let n = c + count(reg, 2);
    if !room_for(reg, ROW, n) {
        return;
    }
    let span = case_range(reg, ROW, c, n, probe.row, CASE_KEY);
    let lo = span.lo;
    let hi = span.hi;
    // by places: from the back a `zip` first skips what one list has more, and its proof with it
    for i in (0..said.evs.len()).rev() {
        let e = said.evs[i];
        let r = place_event(reg, lo, hi, e);
        if r < hi {
            set_row(reg, r, probe, e, said.kept[i]);
        }
    }
}
