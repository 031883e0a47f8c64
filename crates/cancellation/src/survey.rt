// The events of a case that a cancellation file names: how many they are, how long their texts, and whether one keeps the file from being written.
ghost use Rattle.std.specs.Prelude.{◌≡◌, ◌*◌, ◌≤◌, ◌<◌, ◌^◌};
ghost use Rattle.register.specs.View.{most_counted};
ghost use Rattle.home_care.specs.Row.{event_bits};
ghost use Rattle.cancellation.specs.Chosen.{dated_in};
ghost use Rattle.cancellation.specs.View.{chosen_by, Surveyed, OneMore};

use crate::choice::Choice;
use crate::event_text::event_length;
use home_care::evaluation::evaluates;
use judge::event_dates::day_for;
use judge::standing::event_at;

#[derive(Clone, Copy)]
pub struct Extent {
    pub events: usize,
    pub bytes: usize,
    pub replaced: bool,
}

// Whether check 10 places an event between two days.
pub fn dated_in(first: u64, last: u64, e: u64) -> bool
    ensures { result ≡ dated_in first last e }
{
    let day = day_for(e);
    (first <= day) & (day <= last)
}

// One event more. A Rivalutazione with conferma 2 replaces: of its new Valutazione a part is kept, so that its cancellation can't be written.
fn with(s: Extent, e: u64) -> Extent
    requires { (e < 2 ^ event_bits) × (s.events < most_counted) × (s.bytes ≤ 256 * s.events) }
    ensures { OneMore s e result }
{
    Extent {
        events: s.events + 1,
        bytes: s.bytes + event_length(e),
        replaced: s.replaced | evaluates(e),
    }
}

// The chosen events: the first pass over their rows.
pub fn survey(choice: &Choice) -> Extent
    ensures { Surveyed (chosen_by choice.now) result }
{
    let mut s = Extent {
        events: 0,
        bytes: 0,
        replaced: false,
    };
    for i in choice.lo..choice.hi {
        let e = event_at(choice.reg, i);
        if dated_in(choice.first, choice.last, e) {
            s = with(s, e);
        }
    }
    s
}
