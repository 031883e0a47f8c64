// What an accepted record does to a register's bytes (RULES.md, 8 What storing does). A row is packed straight into its place: no copy of it stands elsewhere.
#![tactic(auto)]

pub mod cancel;
pub mod case;
pub mod event_row;
pub mod insert;
pub mod order;
pub mod probe;
pub mod vary;

ghost use Rattle.std.specs.Prelude.{◌≡◌, true, List, ℕ, ◌^◌, ltb, length};
ghost use Rattle.laws.specs.Lists.{all};
ghost use Rattle.model.specs.Checks.{first};
ghost use Rattle.model.specs.Flow.{State};
ghost use Rattle.register.specs.RoomAndEmptying.{room};
ghost use Rattle.register.specs.Search.{probe_key};
ghost use Rattle.register.specs.Stored.{Stored};
ghost use Rattle.home_care.specs.Row.{row_bytes, key_bits, event_bits, evaluation_bits, key_number, siad};
ghost use Rattle.home_care.specs.Fits.{case_with, CaseFits};
ghost use Rattle.home_care.specs.Record.{Head, Admission, Said, admission, events};
ghost use Rattle.home_care.specs.Anomalies.{Context};
ghost use Rattle.checks.specs.Flow.{next};
ghost use Rattle.checks.specs.CheckOrder.{checks_of};
ghost use Rattle.apply.specs.Events.{ListedIn};

use crate::cancel::cancel_events;
use crate::case::{Fields, put_case};
use crate::insert::insert_events;
use crate::probe::key_in;
use crate::vary::vary_events;
use checks::kinds::{cancels, inserts};
use home_care::layout::{CASE_KEY, ROW};
use register::remove::remove_case;

// A record's events, each with the evaluation that is kept beside it, in as many bits as a row has for them.
#[derive(Clone, Copy)]
pub struct Listed<'a> {
    pub evs: &'a [u64],
    pub kept: &'a [u64],
    ghost events_fit: { all (λ e. ltb e (2 ^ event_bits)) evs.now ≡ true },
    ghost evaluations_fit: { all (λ v. ltb v (2 ^ evaluation_bits)) kept.now ≡ true },
    ghost beside: { length kept.now ≡ length evs.now },
}

// An accepted record of Track 1: its case's row, with the key that the probe holds; a cancellation takes the case's events along.
pub fn apply_case(reg: &mut [u8], tipo: u8, probe: &[u8], f: &Fields)
    requires { (length probe.now ≡ row_bytes) × CaseFits (case_with f.now.birth f.now.prevalente.now f.now.scales.now) }
    ensures { ((h : Head) (a : Admission) (s : State ℕ ℕ) (c : Context) → key_number h.key ≡ probe_key row_bytes key_bits probe.now → tipo ≡ h.tipo
        → a.case ≡ case_with f.now.birth f.now.prevalente.now f.now.scales.now → c.room ≡ room siad (length reg.old)
        → Stored siad reg.old s → first (checks_of c (admission h a)) s ≡ 0 → Stored siad reg.new (next (admission h a) s))
        × (length reg.new ≡ length reg.old) }
{
    if cancels(tipo) {
        remove_case(reg, ROW, CASE_KEY, probe);
    } else {
        put_case(reg, &key_in(probe), f);
    }
}

// An accepted record of Track 2: its events' rows, with the case's key that the probe holds and the evaluations that are kept.
pub fn apply_events(reg: &mut [u8], tipo: u8, probe: &[u8], said: &Listed)
    requires { length probe.now ≡ row_bytes }
    ensures { ((h : Head) (es : List Said) (s : State ℕ ℕ) (c : Context) → key_number h.key ≡ probe_key row_bytes key_bits probe.now
        → tipo ≡ h.tipo → ListedIn said.now.evs.now said.now.kept.now es → c.room ≡ room siad (length reg.old)
        → Stored siad reg.old s → first (checks_of c (events h es)) s ≡ 0 → Stored siad reg.new (next (events h es) s))
        × (length reg.new ≡ length reg.old) }
{
    if inserts(tipo) {
        insert_events(reg, &key_in(probe), said);
        return;
    }
    if cancels(tipo) {
        cancel_events(reg, probe, said.evs);
        return;
    }
    vary_events(reg, &key_in(probe), said);
}
