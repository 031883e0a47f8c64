// A record of Track 1: judged, and its case's row stored where it is accepted.
ghost use Rattle.std.specs.Prelude.{◌≡◌, true, length};
ghost use Rattle.markup.specs.Elements.{Tree};
ghost use Rattle.register.specs.RoomAndEmptying.{room};
ghost use Rattle.home_care.specs.Row.{siad};
ghost use Rattle.soundness.specs.Sound.{is_sound};
ghost use Rattle.checks.specs.Numbers.{answer_of};
ghost use Rattle.judge.specs.View.{context_in};
ghost use Rattle.intake.specs.Driving.{Took};
ghost use Rattle.intake.specs.Taking.{Here, siad_driver};

use crate::heading::heading;
use apply::apply_case;
use apply::case::Fields;
use checks::anomaly::Anomaly;
use days::table::Table;
use judge::Limits;
use judge::case_fields::Residence;
use judge::check_order::judge_admission;
use markup::bytes::part;
use tracks::record::{Top, admission};

// The record of Track 1 whose children are at hand: its answer.
pub fn take_admission(
    t: &Table,
    l: Limits,
    s: &[u8],
    top: Top,
    reg: &mut [u8],
) -> Result<(), Anomaly>
    requires { ((a : Tree) × Here 1 s.now top a) × (is_sound reg.old ≡ true) × (l.room ≡ room siad (length reg.old)) }
    ensures { (a : Tree) → Here 1 s.now top a → Took (siad_driver 1 (context_in l)) reg.old a (answer_of result) reg.new }
{
    let h = heading(t, s, top);
    let a = admission(s, top);
    let lives = Residence {
        region: part(s, a.region.start, a.region.end),
        asl: part(s, a.asl.start, a.asl.end),
        comune: part(s, a.comune.start, a.comune.end),
        stato: part(s, a.stato.start, a.stato.end),
    };
    judge_admission(t, reg, l, &h, a.birth, &a.prevalente, lives)?;
    let fields = Fields {
        birth: a.birth,
        prevalente: &a.prevalente,
        scales: &a.scales,
    };
    apply_case(reg, h.tipo, &h.probe, &fields);
    Ok(())
}
