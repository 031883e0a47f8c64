// The records of a file, each judged against the register that the earlier ones left. What a call lends goes singly: two fields of one struct that are lent to be
// written can't be lent on at once.
ghost use Rattle.std.specs.Prelude.{◌≡◌, true, length, drop};
ghost use Rattle.markup.specs.Elements.{Inside, Tree, kids};
ghost use Rattle.markup.specs.View.{part};
ghost use Rattle.reading.specs.Many.{below_root};
ghost use Rattle.schema.specs.Shape.{named_in, records_of};
ghost use Rattle.nodes.specs.Stands.{Holds};
ghost use Rattle.schemas.specs.Schemas.{schema_of};
ghost use Rattle.register.specs.RoomAndEmptying.{room};
ghost use Rattle.home_care.specs.Row.{siad};
ghost use Rattle.soundness.specs.Sound.{is_sound};
ghost use Rattle.judge.specs.View.{context_in};
ghost use Rattle.intake.specs.Driving.{TookAll, TookKid, Stretch};
ghost use Rattle.intake.specs.Taking.{assistenza, siad_driver};
ghost use Rattle.intake.specs.Steps.{Next, Whole};

use crate::record::take_record;
use judge::Limits;
use markup::Ending;
use nodes::Opened;
use nodes::children::{is_named, next_kid};
use reading::skips::head;
use tracks::record::{Top, record_end, top_of};

// How many records there were, and how many of them were accepted.
#[derive(Clone, Copy)]
pub struct Tally {
    pub records: usize,
    pub accepted: usize,
}

// The root's child at a place, with its children at hand: a record is judged and stored, and its answer written.
fn take_kid(
    l: Limits,
    track: u64,
    s: &[u8],
    at: usize,
    top: Top,
    before: Tally,
    reg: &mut [u8],
    answers: &mut [u8],
) -> Tally
    requires { ((a : Tree) × Next track s.now at top before (length answers.old) a) × (is_sound reg.old ≡ true) × (l.room ≡ room siad (length reg.old)) }
    ensures { (a : Tree) → Next track s.now at top before (length answers.old) a → TookKid (siad_driver track (context_in l)) before reg.old answers.old a result reg.new answers.new }
{
    if !is_named(s, at, b"Assistenza") {
        return before;
    }
    let answer = take_record(l, track, s, top, reg);
    answers[before.records] = answer;
    Tally {
        records: before.records + 1,
        accepted: before.accepted + (answer == 0) as usize,
    }
}

// The records among the children of the root: how many were accepted.
fn take_all(
    l: Limits,
    track: u64,
    s: &[u8],
    inside: Opened,
    reg: &mut [u8],
    answers: &mut [u8],
) -> usize
    requires { ((i : Inside) × Stretch (siad_driver track (context_in l)) (part s.now inside.name inside.name_end) (drop inside.from s.now) (length answers.old) i) × (is_sound reg.old ≡ true) × (l.room ≡ room siad (length reg.old)) }
    ensures { (i : Inside) → Holds below_root (part s.now inside.name inside.name_end) (drop inside.from s.now) i → TookAll (siad_driver track (context_in l)) reg.old answers.old (named_in assistenza (kids i)) result reg.new answers.new }
{
    let mut at = inside.from;
    let mut tally = Tally {
        records: 0,
        accepted: 0,
    };
    while let Some(q) = next_kid(s, inside, at) {
        let top = top_of(s, q);
        let Some(done) = record_end(s, q, top.rest) else {
            return tally.accepted;
        };
        tally = take_kid(l, track, s, q, top.found, tally, reg, answers);
        at = done.at;
    }
    tally.accepted
}

// The records of the file whose root stands at a place: how many were accepted.
pub fn take_file(
    l: Limits,
    track: u64,
    s: &[u8],
    root: usize,
    records: usize,
    reg: &mut [u8],
    answers: &mut [u8],
) -> usize
    requires { ((tree : Tree) × Whole track s.now root records (length answers.old) tree) × (is_sound reg.old ≡ true) × (l.room ≡ room siad (length reg.old)) }
    ensures { (tree : Tree) → Whole track s.now root records (length answers.old) tree → TookAll (siad_driver track (context_in l)) reg.old answers.old (records_of (schema_of track) tree) result reg.new answers.new }
{
    let Some(name) = head(s, root) else {
        return 0;
    };
    let Some(ending) = name.next.attributes(s) else {
        return 0;
    };
    match ending {
        Ending::Shut(_) => 0,
        Ending::Open(done) => {
            let inside = Opened {
                name: name.start,
                name_end: name.end,
                from: done.at,
                levels: 11,
            };
            take_all(l, track, s, inside, reg, answers)
        }
    }
}
