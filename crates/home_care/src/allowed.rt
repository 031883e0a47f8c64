// A row is the packing of field values allowed (RULES.md, V3 and V4).
ghost use Rattle.std.specs.Prelude.{◌≡◌, ◌+◌, ◌-◌, ◌*◌, ◌≤◌, length};
ghost use Rattle.rows.specs.Packing.{num, each_at};
ghost use Rattle.days.specs.DayNumbers.{year_of};
ghost use Rattle.home_care.specs.Row.{Key, char_bits, key_bits, event_bits, evaluation_bits, key_in, event_number_in_wide, tail_in_wide, event_in};
ghost use Rattle.home_care.specs.Fits.{RowWidth, as_case, as_event};
ghost use Rattle.home_care.specs.Allowed.{event_allowed, whole_tail_wide, key_allowed, case_rest_allowed, case_row_allowed_wide, event_row_allowed_wide};

use crate::evaluation::evaluates;
use crate::event_bits::{accesses_of, code_of, conferma_of, date_of, end_of, kind_of};
use crate::layout::{
    AFTER_CASE, AFTER_EVALUATION, AFTER_EVENT, ASL, BIRTH, BIRTH_BITS, CHAR_BITS, DAY_BITS, DAYS,
    EVALUATED_INFECTION, EVALUATED_PREVALENTE, FIRST_BIRTH, ID, INFECTION, NEVER, PREVALENTE,
    REGION, REGION_BITS, SCALE_BITS, TAKEN,
};
use crate::row::RowBytes;
use crate::texts::prevalente_allowed;
use codes::code_lists::{REVALUATION, SERVICE, SUSPENSION};
use days::table::Table;
use rows::reader::{get, read_run};

// An event's fields; the code is one of its kind's list.
pub fn event_allowed(e: u64) -> bool
    ensures { result ≡ event_allowed (event_in e) }
{
    let kind = kind_of(e);
    let end = end_of(e);
    let accesses = accesses_of(e);
    let conferma = conferma_of(e);
    let ends = (end == NEVER) | ((kind == SUSPENSION) & (end < DAYS));
    let counts = ((kind == SERVICE) & (accesses <= 99)) | ((kind != SERVICE) & (accesses == 0));
    let confirms = ((kind == REVALUATION) & ((1 <= conferma) & (conferma <= 2)))
        | ((kind != REVALUATION) & (conferma == 0));
    (date_of(e) < DAYS)
        & (ends & (codes::code_lists::is_code(kind, code_of(e)) & (counts & confirms)))
}

impl RowBytes<'_> {
    // N characters of a row, after its first `at` bits.
    fn characters<const N: usize>(self, at: usize) -> [u8; N]
        requires { at + char_bits * N ≤ 8 * length self.bytes.now }
        ensures { result ≡ each_at (8 * length self.entry.bytes.now - (at + char_bits * N)) N char_bits (num self.entry.bytes.now) }
    {
        let mut read = [0; N];
        read_run(self.bytes, at, CHAR_BITS, &mut read);
        read
    }

    // An evaluation in an event's row, and the zero bits behind it.
    fn evaluation_allowed(self) -> bool
        requires { key_bits + event_bits + evaluation_bits ≤ 8 * length self.bytes.now }
        ensures { result ≡ whole_tail_wide (length self.entry.bytes.now) (tail_in_wide (length self.entry.bytes.now) (as_event self.entry.bytes.now)) }
    {
        let prevalente = self.characters(EVALUATED_PREVALENTE);
        let infection = get(self.bytes, EVALUATED_INFECTION, SCALE_BITS);
        let zeros = get(
            self.bytes,
            AFTER_EVALUATION,
            8 * self.bytes.len() - AFTER_EVALUATION,
        );
        (prevalente_allowed(&prevalente) & (infection <= 2)) & (zeros == 0)
    }

    // An event's row, whose 52 bits are e.
    pub fn event_row_allowed(self, e: u64) -> bool
        requires { e ≡ event_number_in_wide (length self.bytes.now) (as_event self.bytes.now) }
        ensures { result ≡ event_row_allowed_wide (length self.entry.bytes.now) (as_event self.entry.bytes.now) }
    {
        let good = event_allowed(e);
        let tail = get(self.bytes, AFTER_EVENT, 8 * self.bytes.len() - AFTER_EVENT);
        if tail == 0 {
            return good;
        }
        if !(evaluates(e) & (AFTER_EVALUATION <= 8 * self.bytes.len())) {
            return false;
        }
        good & self.evaluation_allowed()
    }

    // A case's key.
    pub fn key_allowed(self) -> bool
        ensures { result ≡ key_allowed (key_in (as_case self.entry.bytes.now).key) }
    {
        let asl = self.characters::<3>(ASL);
        let id = self.characters::<88>(ID);
        let region = get(self.bytes, REGION, REGION_BITS);
        let taken = get(self.bytes, TAKEN, DAY_BITS);
        codes::code_lists::is_region(region)
            & (codes::characters::all_alnum(&asl)
                & ((taken < DAYS) & codes::characters::all_id(&id)))
    }

    // What a case's row has after its key, taken in in that year.
    fn rest_allowed(self, year: u64) -> bool
        ensures { (k : Key) → year ≡ year_of k.taken → result ≡ case_rest_allowed (length self.entry.bytes.now) k (as_case self.entry.bytes.now).val }
    {
        let prevalente = self.characters(PREVALENTE);
        let birth = get(self.bytes, BIRTH, BIRTH_BITS);
        let infection = get(self.bytes, INFECTION, SCALE_BITS);
        let pad = get(self.bytes, AFTER_CASE, 8 * self.bytes.len() - AFTER_CASE);
        (!((birth < FIRST_BIRTH) | (year < birth))
            & (prevalente_allowed(&prevalente) & (infection <= 2)))
            & (pad == 0)
    }

    // A case's row.
    pub fn case_row_allowed(self, t: &Table) -> bool
        ensures { result ≡ case_row_allowed_wide (length self.entry.bytes.now) (as_case self.entry.bytes.now) }
    {
        if !self.key_allowed() {
            return false;
        }
        let taken = get(self.bytes, TAKEN, DAY_BITS);
        let year = days::calendar::year_of(t, taken as u32);
        self.rest_allowed(year as u64)
    }
}
