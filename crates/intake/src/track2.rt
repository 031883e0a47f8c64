// A record of Track 2: judged by its events' 52 bits, and their rows stored where it is accepted, with the evaluations that are only kept.
ghost use Rattle.std.specs.Prelude.{◌≡◌, true, length};
ghost use Rattle.markup.specs.Elements.{Tree};
ghost use Rattle.register.specs.RoomAndEmptying.{room};
ghost use Rattle.home_care.specs.Row.{siad};
ghost use Rattle.soundness.specs.Sound.{is_sound};
ghost use Rattle.checks.specs.Numbers.{answer_of};
ghost use Rattle.judge.specs.View.{context_in};
ghost use Rattle.intake.specs.Driving.{Took};
ghost use Rattle.intake.specs.Taking.{Here, siad_driver};

use crate::heading::heading;
use apply::{Listed, apply_events};
use checks::anomaly::Anomaly;
use days::table::Table;
use judge::Limits;
use judge::check_order::judge_events;
use tracks::events::events;
use tracks::record::Top;

// F7: no record that is taken has more.
const MOST_EVENTS: usize = 128;

// The record of Track 2 whose children are at hand: its answer.
pub fn take_events(t: &Table, l: Limits, s: &[u8], top: Top, reg: &mut [u8]) -> Result<(), Anomaly>
    requires { ((a : Tree) × Here 2 s.now top a) × (is_sound reg.old ≡ true) × (l.room ≡ room siad (length reg.old)) }
    ensures { (a : Tree) → Here 2 s.now top a → Took (siad_driver 2 (context_in l)) reg.old a (answer_of result) reg.new }
{
    let h = heading(t, s, top);
    // two arrays and a number, since no memory is taken but stack, and `events` fills what it is lent
    let mut evs = [0u64; MOST_EVENTS];
    let mut kept = [0u64; MOST_EVENTS];
    let read = events(t, s, top, &mut evs, &mut kept);
    let n = read.count;
    judge_events(
        reg,
        l,
        &h,
        &evs[..n],
        read.bad_conferma,
        read.zero_prevalente,
    )?;
    let said = Listed {
        evs: &evs[..n],
        kept: &kept[..n],
    };
    apply_events(reg, h.tipo, &h.probe, &said);
    Ok(())
}
