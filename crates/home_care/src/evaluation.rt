// An evaluation: six scales and a prevalente as one number of 47 bits (RULES.md, R32 to R34). Here a row is told by its length alone, which `row_at` gives.
ghost use Rattle.std.specs.Prelude.{◌≡◌, ◌^◌, ◌<◌, length};
ghost use Rattle.home_care.specs.Row.{row_bytes, evaluation_bits, evaluation_number, evaluation_in, «evaluates»};
ghost use Rattle.home_care.specs.Fits.{EvaluationFits, evaluation_with, as_event};

use crate::event_bits::{conferma_of, kind_of};
use crate::layout::{AFTER_EVENT, ANEW, CHAR_BITS, EVALUATION_BITS, SCALE_BITS};
use codes::code_lists::REVALUATION;
use rows::reader::get;
use rows::writer::Bits;

// The bytes that its bits fill.
const BYTES: usize = 6;

// The number of an evaluation's fields.
pub fn evaluation_number(scales: &[u8], prevalente: &[u8]) -> u64
    requires { EvaluationFits (evaluation_with scales.now prevalente.now) }
    ensures { (result ≡ evaluation_number (evaluation_with scales.now prevalente.now)) × (result < 2 ^ evaluation_bits) }
{
    let mut out = [0u8; BYTES];
    Bits::new()
        .put_each(&mut out, SCALE_BITS, scales)
        .put_each(&mut out, CHAR_BITS, prevalente)
        .finish(&mut out);
    get(&out, 0, EVALUATION_BITS)
}

// Whether an event keeps one.
pub fn evaluates(e: u64) -> bool
    ensures { result ≡ «evaluates» e }
{
    (kind_of(e) == REVALUATION) & (conferma_of(e) == ANEW)
}

// The number that an event's row keeps.
pub fn evaluation_in(row: &[u8]) -> u64
    requires { length row.now ≡ row_bytes }
    ensures { (result ≡ evaluation_in (as_event row.now)) × (result < 2 ^ evaluation_bits) }
{
    get(row, AFTER_EVENT, EVALUATION_BITS)
}
