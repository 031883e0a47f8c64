// The calls that bench/ measures.
#![tactic(auto)]

ghost use Rattle.std.specs.Prelude.{◌≡◌, true, false, ◌&&◌, List, ℕ, ◌^◌, eqb, ltb, length};
ghost use Rattle.laws.specs.Lists.{all};
ghost use Rattle.markup.specs.Document.{in_markup};
ghost use Rattle.model.specs.Checks.{first};
ghost use Rattle.model.specs.Flow.{State};
ghost use Rattle.register.specs.RoomAndEmptying.{room};
ghost use Rattle.register.specs.Search.{probe_key};
ghost use Rattle.register.specs.Stored.{Stored};
ghost use Rattle.home_care.specs.Row.{row_bytes, key_bits, event_bits, evaluation_bits, key_number, siad};
ghost use Rattle.home_care.specs.Record.{Head, Said, events};
ghost use Rattle.home_care.specs.Anomalies.{Context};
ghost use Rattle.checks.specs.Flow.{next};
ghost use Rattle.checks.specs.CheckOrder.{checks_of};
ghost use Rattle.apply.specs.Events.{ListedIn};

use home_care::layout::ROW;

// No event of 52 bits is so large, and no evaluation of 47.
const PAST_EVENTS: u64 = 1 << 52;

const PAST_EVALUATIONS: u64 = 1 << 47;

#[unsafe(no_mangle)]
pub extern "C" fn bench_in_markup(s: &[u8]) -> bool
    ensures { result ≡ in_markup s.now }
{
    markup::file::in_markup(s)
}

// Whether each number is below the one given.
fn all_below(ns: &[u64], past: u64) -> bool
    ensures { result ≡ all (λ e. ltb e past) ns.now }
{
    ns.iter().all(|n| *n < past)
}

// Whether each event has an event's 52 bits, and there is an evaluation of 47 bits for each. C lends the two lists.
fn storable(evs: &[u64], kept: &[u64]) -> bool
    ensures { result ≡ (all (λ e. ltb e (2 ^ event_bits)) evs.now && (all (λ v. ltb v (2 ^ evaluation_bits)) kept.now && eqb (length kept.now) (length evs.now))) }
{
    all_below(evs, PAST_EVENTS) & (all_below(kept, PAST_EVALUATIONS) & (kept.len() == evs.len()))
}

// The events of an accepted record of Track 2 stored with their evaluations; false, and nothing stored, where the probe is no row, a number has too many bits
// or there aren't as many evaluations as events.
#[unsafe(no_mangle)]
pub extern "C" fn bench_store_events(
    reg: &mut [u8],
    tipo: u8,
    probe: &[u8],
    evs: &[u64],
    kept: &[u64],
) -> bool
    ensures { (result ≡ eqb (length probe.now) row_bytes
        && (all (λ e. ltb e (2 ^ event_bits)) evs.now && (all (λ v. ltb v (2 ^ evaluation_bits)) kept.now && eqb (length kept.now) (length evs.now))))
        × (result ≡ false → reg.new ≡ reg.old)
        × (result ≡ true → (h : Head) (es : List Said) (s : State ℕ ℕ) (c : Context) → key_number h.key ≡ probe_key row_bytes key_bits probe.now
        → tipo ≡ h.tipo → ListedIn evs.now kept.now es → c.room ≡ room siad (length reg.old)
        → Stored siad reg.old s → first (checks_of c (events h es)) s ≡ 0 → Stored siad reg.new (next (events h es) s)) }
{
    if probe.len() != ROW {
        return false;
    }
    if !storable(evs, kept) {
        return false;
    }
    let said = apply::Listed { evs, kept };
    apply::apply_events(reg, tipo, probe, &said);
    true
}
