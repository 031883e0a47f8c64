// The rows of the table, packed: into a buffer of any length that has room for the fields, which stays a clause, since no type says "at least so long".
ghost use Rattle.std.specs.Prelude.{◌≡◌, ◌+◌, ◌-◌, ◌*◌, ◌^◌, ◌≤◌, ◌<◌, length};
ghost use Rattle.rows.specs.Packing.{num, row_number};
ghost use Rattle.rows.specs.Writer.{so_far, count, Wrote, start};
ghost use Rattle.home_care.specs.Row.{key_bits, case_bits, event_bits, evaluation_bits, key_fields, case_fields, case_number, event_number};
ghost use Rattle.home_care.specs.Fits.{key_with, case_with, event_with, KeyFits, CaseFits, EventFits};

use crate::layout::{
    ACCESSES_BITS, BIRTH_BITS, CHAR_BITS, CODE_BITS, CONFERMA_BITS, DAY_BITS, EVALUATION_BITS,
    EVENT_BITS, REGION_BITS, SCALE_BITS,
};
use rows::writer::Bits;

// Writes the key of a case.
pub fn put_key(out: &mut [u8], region: u64, asl: &[u8], day: u64, id: &[u8]) -> Bits
    requires key_fits { KeyFits (key_with region asl.now day id.now) }
    requires key_bits_bound { key_bits ≤ 8 * length out.old }
    ensures wrote { Wrote out.old out.new start result (key_fields (key_with region asl.now day id.now)) }
    ensures result_value { count result ≡ key_bits }
{
    Bits::new()
        .put(out, REGION_BITS, region)
        .put_each(out, CHAR_BITS, asl)
        .put(out, DAY_BITS, day)
        .put_each(out, CHAR_BITS, id)
}

// Writes what a case has after its key.
pub fn put_case(out: &mut [u8], s: Bits, birth: u64, prevalente: &[u8], scales: &[u8]) -> Bits
    requires case_fits { CaseFits (case_with birth prevalente.now scales.now) }
    requires case_bits_bound { count s + case_bits ≤ 8 * length out.old }
    ensures wrote { Wrote out.old out.new s result (case_fields (case_with birth prevalente.now scales.now)) }
    ensures result_value { count result ≡ count s + case_bits }
{
    s.put(out, BIRTH_BITS, birth)
        .put_each(out, CHAR_BITS, prevalente)
        .put_each(out, SCALE_BITS, scales)
}

// A row of the key alone: the probe that a search compares with.
pub fn pack_key(out: &mut [u8], region: u64, asl: &[u8], day: u64, id: &[u8])
    requires key_fits { KeyFits (key_with region asl.now day id.now) }
    requires key_bits_bound { key_bits ≤ 8 * length out.old }
    ensures { num out.new ≡ row_number (length out.old) (key_fields (key_with region asl.now day id.now)) }
{
    put_key(out, region, asl, day, id).finish(out);
}

// A case's row behind a key that a writer has written: the case's fields, then zero bits.
pub fn set_case(out: &mut [u8], s: Bits, birth: u64, prevalente: &[u8], scales: &[u8])
    requires { CaseFits (case_with birth prevalente.now scales.now) × (count s + case_bits ≤ 8 * length out.old) }
    ensures { num out.new ≡ (so_far out.old s * 2 ^ case_bits + case_number (case_with birth prevalente.now scales.now)) * 2 ^ (8 * length out.old - (count s + case_bits)) }
{
    put_case(out, s, birth, prevalente, scales).finish(out);
}

// The number of an event's fields.
pub fn event_number(kind: u64, date: u64, code: u64, end: u64, accesses: u64, conferma: u64) -> u64
    requires { EventFits (event_with kind date code end accesses conferma) }
    ensures { (result ≡ event_number (event_with kind date code end accesses conferma)) × (result < 2 ^ event_bits) }
{
    let key = (((kind << DAY_BITS) + date) << CODE_BITS) + code;
    let ended = (key << DAY_BITS) + end;
    (((ended << ACCESSES_BITS) + accesses) << CONFERMA_BITS) + conferma
}

// An event's row behind a key that a writer has written: the event's number, its evaluation's, then zero bits. What was written stays, so that the key serves
// the next event too.
pub fn set_event(out: &mut [u8], s: Bits, event: u64, evaluation: u64)
    requires { (event < 2 ^ event_bits) × (evaluation < 2 ^ evaluation_bits) × (count s + event_bits + evaluation_bits ≤ 8 * length out.old) }
    ensures { (num out.new ≡ ((so_far out.old s * 2 ^ event_bits + event) * 2 ^ evaluation_bits + evaluation) * 2 ^ (8 * length out.old - (count s + event_bits + evaluation_bits)))
        × (so_far out.new s ≡ so_far out.old s) }
{
    s.put(out, EVENT_BITS, event)
        .put(out, EVALUATION_BITS, evaluation)
        .finish(out);
}
