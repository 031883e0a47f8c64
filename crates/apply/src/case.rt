// A case's row: the key that its probe holds, then its fields; packed straight into its place.
ghost use Rattle.std.specs.Prelude.{◌≡◌, ◌+◌, ◌*◌, ◌≤◌, ◌<◌, length};
ghost use Rattle.register.specs.Moves.{opened_by, inserted, replaced};
ghost use Rattle.register.specs.Search.{probe_key};
ghost use Rattle.home_care.specs.Row.{row_bytes, key_bits};
ghost use Rattle.home_care.specs.Fits.{case_with, CaseFits};
ghost use Rattle.apply.specs.Cases.{CaseIn};
ghost use Rattle.apply.specs.RowBytes.{case_bytes};
ghost use Rattle.register.specs.View.{most_counted};

use crate::probe::Probe;
use home_care::layout::{CASE_KEY, ROW};
use register::counts::{count, set_count};
use register::moving::{put_row, shift_right};
use register::room::room_for;
use register::search::{place, stands};

// A case's fields. That each fits its bits stands in the clauses: it goes by recursion over the fields, and as a fact of the struct it would want a proof beside it
// in specs/ that there is one proof of it.
#[derive(Clone, Copy)]
pub struct Fields<'a> {
    pub birth: u64,
    pub prevalente: &'a [u8],
    pub scales: &'a [u8],
}

// A case's row over a row: the probe's key, then the fields.
fn pack_case(out: &mut [u8], probe: &Probe, f: &Fields)
    requires { (length out.old ≡ row_bytes) × CaseFits (case_with f.now.birth f.now.prevalente.now f.now.scales.now) }
    ensures { out.new ≡ case_bytes (probe_key row_bytes key_bits probe.now.row.now) (case_with f.now.birth f.now.prevalente.now f.now.scales.now) }
{
    put_row(out, probe.row);
    home_care::pack::set_case(out, probe.key, f.birth, f.prevalente, f.scales);
}

// A case's row over row i.
fn set_case(reg: &mut [u8], i: usize, probe: &Probe, f: &Fields)
    requires { (4 + row_bytes * (i + 1) ≤ length reg.old) × CaseFits (case_with f.now.birth f.now.prevalente.now f.now.scales.now) }
    ensures { reg.new ≡ replaced row_bytes i (case_bytes (probe_key row_bytes key_bits probe.now.row.now) (case_with f.now.birth f.now.prevalente.now f.now.scales.now)) reg.old }
{
    let from = 4 + ROW * i;
    let to = from + ROW;
    pack_case(&mut reg[from..to], probe, f);
}

// The register's part from the case's place on: its rows go one row on, and the case is packed into the gap.
fn open_case(part: &mut [u8], probe: &Probe, f: &Fields)
    requires { (row_bytes ≤ length part.old) × CaseFits (case_with f.now.birth f.now.prevalente.now f.now.scales.now) }
    ensures { part.new ≡ opened_by (case_bytes (probe_key row_bytes key_bits probe.now.row.now) (case_with f.now.birth f.now.prevalente.now f.now.scales.now)) part.old }
{
    shift_right(part, ROW);
    pack_case(&mut part[..ROW], probe, f);
}

// A case's row in front of row i of n.
fn insert_case(reg: &mut [u8], i: usize, n: usize, probe: &Probe, f: &Fields)
    requires { (i ≤ n) × (n < most_counted) × (4 + row_bytes * (n + 1) ≤ length reg.old) × CaseFits (case_with f.now.birth f.now.prevalente.now f.now.scales.now) }
    ensures { reg.new ≡ inserted row_bytes i n (case_bytes (probe_key row_bytes key_bits probe.now.row.now) (case_with f.now.birth f.now.prevalente.now f.now.scales.now)) reg.old }
{
    let from = 4 + ROW * i;
    let to = 4 + ROW * (n + 1);
    open_case(&mut reg[from..to], probe, f);
}

// A case put in: over the row with its key, or into its place among the cases.
pub fn put_case(reg: &mut [u8], probe: &Probe, f: &Fields)
    requires { CaseFits (case_with f.now.birth f.now.prevalente.now f.now.scales.now) }
    ensures { CaseIn (probe_key row_bytes key_bits probe.now.row.now) (case_with f.now.birth f.now.prevalente.now f.now.scales.now) reg.old reg.new }
{
    if reg.len() < 4 {
        return;
    }
    let c = count(reg, 0);
    let n = c + count(reg, 2);
    if !room_for(reg, ROW, n) {
        return;
    }
    let i = place(reg, ROW, 0, c, probe.row, CASE_KEY, 0);
    if stands(reg, ROW, i, c, probe.row, CASE_KEY) {
        set_case(reg, i, probe, f);
        return;
    }
    if !room_for(reg, ROW, n + 1) {
        return;
    }
    insert_case(reg, i, n, probe, f);
    set_count(reg, 0, c + 1);
}
