// One record: judged, and stored where it is accepted. That the register is sound, and the room its own, stays a clause: it is said of the bytes before the
// call, and a struct that is lent to be written would owe it after each byte. The track is a number, as in the call and its definition (`siad_driver`).
ghost use Rattle.std.specs.Prelude.{◌≡◌, true, length};
ghost use Rattle.markup.specs.Elements.{Tree};
ghost use Rattle.register.specs.RoomAndEmptying.{room};
ghost use Rattle.home_care.specs.Row.{siad};
ghost use Rattle.soundness.specs.Sound.{is_sound};
ghost use Rattle.judge.specs.View.{context_in};
ghost use Rattle.intake.specs.Driving.{Took};
ghost use Rattle.intake.specs.Taking.{Here, siad_driver};

use crate::track1::take_admission;
use crate::track2::take_events;
use checks::anomaly::answer_of;
use days::table::make;
use judge::Limits;
use tracks::record::Top;

// The record whose children are at hand: its answer, as the byte that the list holds and `Took` speaks of. The table of days is made here and not above: the
// passes over the file before this one need none, and have the stack to themselves.
pub fn take_record(l: Limits, track: u64, s: &[u8], top: Top, reg: &mut [u8]) -> u8
    requires { ((a : Tree) × Here track s.now top a) × (is_sound reg.old ≡ true) × (l.room ≡ room siad (length reg.old)) }
    ensures { (a : Tree) → Here track s.now top a → Took (siad_driver track (context_in l)) reg.old a result reg.new }
{
    let t = make();
    if track == 1 {
        answer_of(take_admission(&t, l, s, top, reg))
    } else {
        answer_of(take_events(&t, l, s, top, reg))
    }
}
