// The shape of a whole file.
ghost use Rattle.std.specs.Prelude.{◌-◌, ◌≡◌};
ghost use Rattle.schema.specs.View.{ok_seen, ok_leaf, faulty_of, Answers, HasName, Takes, JudgedPast, HeldWithin, HeldFile};

use crate::children::Spot;
use crate::steps::Step;
use crate::table::{BELOW_ROOT, Kind, NUMBER, Tables};
use crate::{Fault, Name, Past, name_at};
use markup::Ending;
use markup::bytes::{part, same};

// A file that is not of the shape: the number of the record at fault, 0 for none as the report tells it, and the bytes left at the `<` of the element at fault;
// or the number of the first record with too many counted elements.
#[derive(Clone, Copy)]
pub enum ShapeFault {
    Faulty { number: usize, from: usize },
    Crowded(usize),
}

// The place, counted from 0, that has so many bytes left of all. No contract bounds what is left by the whole: so the other way has a result too.
pub fn place_of(all: usize, left: usize) -> usize
    ensures { result ≡ all - left }
{
    all.saturating_sub(left)
}

// Some records without fault: how many, and the number of the first with too many counted elements.
#[derive(Clone, Copy)]
pub struct Records {
    pub number: usize,
    pub over: Option<usize>,
}

// The first record at fault: its number, and the fault.
#[derive(Clone, Copy)]
pub struct BadRecord {
    pub number: usize,
    pub from: usize,
}

impl From<BadRecord> for ShapeFault {
    ghost from_gives = { λ b f. f ≡ faulty_of b };

    fn from(bad: BadRecord) -> Self {
        ShapeFault::Faulty {
            number: bad.number,
            from: bad.from,
        }
    }
}

// What is known after a child; and the place past it, where it is a record without fault.
#[derive(Clone, Copy)]
pub struct Taken {
    pub seen: Result<Records, BadRecord>,
    pub next: Option<usize>,
}

// What is known after all records.
fn answer(seen: Result<Records, BadRecord>) -> Result<usize, ShapeFault>
    ensures { Answers seen result }
{
    let records = seen?;
    match records.over {
        Some(number) => Err(ShapeFault::Crowded(number)),
        None => Ok(records.number),
    }
}

impl Tables<'_> {
    // The element at a place has the name of a row: by markup's `same`, as in `shape`, in the rules' words, where `==` owes a lemma at each of seven exits.
    fn has_name(&self, row: usize, s: &[u8], at: usize) -> bool
        ensures { HasName self.now.table.now self.now.pool.now s.now at row result }
    {
        match name_at(s, at) {
            Some(name) => same(self.name_of(row), part(s, name.start, name.end)),
            None => false,
        }
    }

    // A record is held against its row, as long as none was at fault; another child changes nothing.
    fn hold_record(&self, s: &[u8], at: usize, seen: Result<Records, BadRecord>) -> Taken
        requires { ok_seen at seen }
        ensures { Takes self.now.table.now self.now.pool.now self.now.ranges.now s.now at seen result }
    {
        let Ok(records) = seen else {
            return Taken { seen, next: None };
        };
        let each = self.cell(0, NUMBER) as usize;
        if !self.has_name(each, s, at) {
            return Taken { seen, next: None };
        }
        let number = records.number + 1;
        match self.fault(s, at, BELOW_ROOT, each) {
            Err(fault) => Taken {
                seen: Err(BadRecord {
                    number,
                    from: fault.from,
                }),
                next: None,
            },
            Ok(past) => {
                let over = self.first_over(records.over, number, past.count);
                Taken {
                    seen: Ok(Records { number, over }),
                    next: Some(past.next),
                }
            }
        }
    }

    // The child at a place, by the row that has its name: one that may hold anything isn't read again where the place past it is known.
    fn past_child(
        &self,
        s: &[u8],
        at: usize,
        row: usize,
        known: Option<usize>,
    ) -> Result<Past, Fault>
        requires { ok_leaf s.now at known }
        ensures { JudgedPast self.now.table.now self.now.pool.now self.now.ranges.now s.now at row known result }
    {
        match (known, self.kind(row)) {
            (Some(next), Kind::Another) => Ok(Past { next, count: 0 }),
            _ => self.fault(s, at, BELOW_ROOT, row),
        }
    }

    // What stands in the root, which opened with `from` bytes left: each record is read by the way, and a fault outside the records comes first.
    fn root_inside(
        &self,
        s: &[u8],
        start: usize,
        name: Name,
        from: usize,
    ) -> Result<usize, ShapeFault>
        ensures { HeldWithin self.now.table.now self.now.pool.now self.now.ranges.now s.now start name.start name.end from result }
    {
        let outside = ShapeFault::Faulty { number: 0, from };
        let rows = self.children(0);
        let mut at = start;
        let mut spot = Spot::START;
        let mut seen = Ok(Records {
            number: 0,
            over: None,
        });
        loop {
            match self.advance(s, at, name, rows, spot) {
                None => {
                    return Err(outside);
                }
                Some(Step::Past(_)) => {
                    return answer(seen);
                }
                Some(Step::On(next)) => {
                    at = next;
                }
                Some(Step::Child(now)) => {
                    let taken = self.hold_record(s, at, seen);
                    let row = rows.first + now.item;
                    let Ok(past) = self.past_child(s, at, row, taken.next) else {
                        return Err(outside);
                    };
                    at = past.next;
                    spot = Spot {
                        item: now.item,
                        count: now.count + 1,
                    };
                    seen = taken.seen;
                }
            }
        }
    }

    // The file whose root stands at a place: its tag, then what stands in it.
    pub fn shape(&self, s: &[u8], root: usize) -> Result<usize, ShapeFault>
        ensures { HeldFile self.now.table.now self.now.pool.now self.now.ranges.now s.now root result }
    {
        let Some(text) = name_at(s, root) else {
            return Ok(0);
        };
        let from = s.len() - root;
        let outside = ShapeFault::Faulty { number: 0, from };
        if !same(self.name_of(0), part(s, text.start, text.end)) {
            return Err(outside);
        }
        if !self.root_attrs_fit(s, text.next.at) {
            return Err(outside);
        }
        let name = Name {
            start: text.start,
            end: text.end,
        };
        match text.next.attributes(s) {
            None => Ok(0),
            Some(Ending::Shut(_)) => {
                if self.enough(self.children(0), Spot::START) {
                    Ok(0)
                } else {
                    Err(outside)
                }
            }
            Some(Ending::Open(done)) => self.root_inside(s, done.at, name, from),
        }
    }
}
