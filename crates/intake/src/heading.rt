// A record's head, as judging and storing want it.
ghost use Rattle.std.specs.Prelude.{ℕ, ◌<◌};
ghost use Rattle.days.specs.DayNumbers.{day_count};
ghost use Rattle.markup.specs.Elements.{Tree};
ghost use Rattle.tracks.specs.RecordFields.{head_of};
ghost use Rattle.judge.specs.View.{IsOf};
ghost use Rattle.intake.specs.Taking.{Here};

use days::table::Table;
use home_care::layout::ROW;
use home_care::pack::pack_key;
use judge::Heading;
use markup::bytes::part;
use tracks::record::{Top, head};

// The record of either track whose children are at hand: its type and taking in, and its case's key packed into a row.
pub fn heading(t: &Table, s: &[u8], top: Top) -> Heading
    requires { (track : ℕ) × (a : Tree) × Here track s.now top a }
    ensures { ((track : ℕ) (a : Tree) → Here track s.now top a → IsOf result.probe result.tipo result.taken (head_of a)) × (result.taken < day_count) }
{
    let h = head(t, s, top);
    let asl = part(s, h.asl, h.asl + 3);
    let id = part(s, h.id, h.id + 88);
    let mut probe = [0u8; ROW];
    pack_key(&mut probe, h.region, asl, h.day, id);
    Heading {
        tipo: h.tipo,
        taken: h.day,
        probe,
    }
}
