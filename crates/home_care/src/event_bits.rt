// The fields of an event's 52 bits, an event in its row, and two events that share a day. An event stays a number: these answer for every number, and only what
// packs a row asks that it has 52 bits.
ghost use Rattle.std.specs.Prelude.{◌≡◌, ◌+◌, ◌≤◌, ◌-◌, ◌<◌, ◌^◌, eqb, length};
ghost use Rattle.rows.specs.Packing.{field_at};
ghost use Rattle.home_care.specs.Row.{day_bits, key_bits, event_bits, own_bits, past_own, kind_of, date_of, code_of, end_of, accesses_of, conferma_of, event_key_of, event_number_in_wide};
ghost use Rattle.home_care.specs.EventRows.{own_bits_of};
ghost use Rattle.home_care.specs.Fits.{RowWidth, as_event};
ghost use Rattle.home_care.specs.Anomalies.{share_day};

use crate::layout::{
    ACCESSES, ACCESSES_BITS, AFTER_EVENT, CASE_KEY, CODE, CODE_BITS, CONFERMA, CONFERMA_BITS, DATE,
    DATED_BITS, DAY_BITS, END, EVENT_BITS, KIND, KIND_BITS, OWN_BITS, PAST_OWN,
};
use codes::code_lists::{SERVICE, SUSPENSION};
use rows::reader::get;

// A field of an event: the w bits that stand at a place of its row.
fn field(e: u64, at: usize, w: usize) -> u64
    requires { (0 < w) × (w ≤ day_bits) × (key_bits ≤ at) × (at + w ≤ key_bits + event_bits) }
    ensures { (result ≡ field_at (key_bits + event_bits - (at + w)) w e) × (result < 2 ^ w) }
{
    (e >> (AFTER_EVENT - (at + w))) % (1 << w)
}

pub fn kind_of(e: u64) -> u64
    ensures { result ≡ kind_of e }
{
    e >> (AFTER_EVENT - DATE)
}

pub fn date_of(e: u64) -> u64
    ensures { (result ≡ date_of e) × (result < 2 ^ day_bits) }
{
    field(e, DATE, DAY_BITS)
}

pub fn code_of(e: u64) -> u64
    ensures { result ≡ code_of e }
{
    field(e, CODE, CODE_BITS)
}

pub fn end_of(e: u64) -> u64
    ensures { (result ≡ end_of e) × (result < 2 ^ day_bits) }
{
    field(e, END, DAY_BITS)
}

pub fn accesses_of(e: u64) -> u64
    ensures { result ≡ accesses_of e }
{
    field(e, ACCESSES, ACCESSES_BITS)
}

pub fn conferma_of(e: u64) -> u64
    ensures { result ≡ conferma_of e }
{
    field(e, CONFERMA, CONFERMA_BITS)
}

// The bits of its own key, the part past its case's: kind and date, and of an Erogazione the code.
pub fn own_bits_of(e: u64) -> usize
    ensures { (result ≡ own_bits_of e) × (0 < result) × (result ≤ own_bits) }
{
    if field(e, KIND, KIND_BITS) == SERVICE {
        return OWN_BITS;
    }
    DATED_BITS
}

// That part as a number, with zeros for a code that is no part of it.
pub fn event_key_of(e: u64) -> u64
    ensures { (result ≡ event_key_of e) × (result < 2 ^ (64 - past_own)) }
{
    let spare = OWN_BITS - own_bits_of(e);
    ((e >> PAST_OWN) >> spare) << spare
}

// Whether two events have one own key: by as many bits as the first one's has.
pub fn same_key(a: u64, b: u64) -> bool
    ensures { result ≡ eqb (event_key_of a) (event_key_of b) }
{
    let past = EVENT_BITS - own_bits_of(a);
    (a >> past) == (b >> past)
}

// The 52 bits of an event.
pub fn event_of(row: &[u8]) -> u64
    requires { RowWidth (length row.now) }
    ensures { (result ≡ event_number_in_wide (length row.now) (as_event row.now)) × (result < 2 ^ event_bits) }
{
    get(row, CASE_KEY, EVENT_BITS)
}

// Whether two suspensions share a day.
pub fn share_day(a: u64, b: u64) -> bool
    ensures { result ≡ share_day a b }
{
    let both = (kind_of(a) == SUSPENSION) & (kind_of(b) == SUSPENSION);
    let before = date_of(a) <= end_of(b);
    let after = date_of(b) <= end_of(a);
    both & (before & after)
}
