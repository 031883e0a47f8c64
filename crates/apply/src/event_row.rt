// An event's row: the key that its case's probe holds, then the event and its evaluation. That both have their bits is a clause here, and a fact of the list
// that they come from (`Listed`): a pair of them would be made anew for each.
ghost use Rattle.std.specs.Prelude.{◌≡◌, ◌+◌, ◌*◌, ◌^◌, ◌≤◌, ◌<◌, length};
ghost use Rattle.register.specs.Moves.{replaced};
ghost use Rattle.register.specs.Search.{probe_key};
ghost use Rattle.home_care.specs.Row.{row_bytes, key_bits, event_bits, evaluation_bits};
ghost use Rattle.apply.specs.RowBytes.{event_bytes};

use crate::probe::Probe;
use home_care::layout::ROW;
use register::moving::put_row;

// An event's row over a row: the probe's key, then the event and its evaluation.
pub fn pack_event(out: &mut [u8], probe: &Probe, e: u64, v: u64)
    requires { (length out.old ≡ row_bytes) × (e < 2 ^ event_bits) × (v < 2 ^ evaluation_bits) }
    ensures { out.new ≡ event_bytes (probe_key row_bytes key_bits probe.now.row.now) e v }
{
    put_row(out, probe.row);
    home_care::pack::set_event(out, probe.key, e, v);
}

// An event's row over row i.
pub fn set_row(reg: &mut [u8], i: usize, probe: &Probe, e: u64, v: u64)
    requires { (4 + row_bytes * (i + 1) ≤ length reg.old) × (e < 2 ^ event_bits) × (v < 2 ^ evaluation_bits) }
    ensures { reg.new ≡ replaced row_bytes i (event_bytes (probe_key row_bytes key_bits probe.now.row.now) e v) reg.old }
{
    let from = 4 + ROW * i;
    let to = from + ROW;
    pack_event(&mut reg[from..to], probe, e, v);
}
