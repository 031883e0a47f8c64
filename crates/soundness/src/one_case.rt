// A case's events together: in order and free of 23 and 25 to 28, by neighbours and a running latest day, since they ascend.
ghost use Rattle.std.specs.Prelude.{◌≡◌, cond, not, ◌&&◌, ◌+◌, ◌-◌, ◌≤◌, ◌<◌, max, eqb, ltb, leb, length};
ghost use Rattle.register.specs.Layout.{row_at};
ghost use Rattle.register.specs.State.{events_from};
ghost use Rattle.home_care.specs.Row.{never, home_care, date_of, end_of, event_key_of};
ghost use Rattle.home_care.specs.Fits.{RowWidth};
ghost use Rattle.home_care.specs.Anomalies.{is_suspension, is_conclusion, share_day};
ghost use Rattle.soundness.specs.Walk.{case_at, ran};

use codes::code_lists::{CONCLUSION, SUSPENSION};
use home_care::event_bits::{date_of, end_of, event_key_of, event_of, kind_of, share_day};
use home_care::layout::{CASE_KEY, DAY_BITS, NEVER, TAKEN};
use home_care::row::RowBytes;
use register::row::row_at;
use register::search::stands;

// What a case's events so far ask of the next: the least key, the event before it and the latest day; zeros at first, which clash with no event.
#[derive(Clone, Copy)]
struct Before {
    least: u64,
    prev: u64,
    latest: u64,
}

// The latest day with the event's: its date, and its end where it has one.
fn later(latest: u64, e: u64) -> u64
    ensures { result ≡ max latest (max (date_of e) (cond (eqb (end_of e) never) 0 (end_of e))) }
{
    let end = end_of(e);
    let day = latest.max(date_of(e));
    if end == NEVER { day } else { day.max(end) }
}

// Whether an event fits its case: its key above the last, the taking in, the event before it and the latest day so far.
fn fits_after(taken: u64, b: Before, e: u64) -> bool
    ensures { result ≡ leb b.least (event_key_of e)
        && (leb taken (date_of e) && (not (is_suspension e && ltb (end_of e) (date_of e)) && (not (share_day b.prev e) && (not (is_conclusion b.prev && is_conclusion e) && not (is_conclusion e && ltb (date_of e) b.latest))))) }
{
    let date = date_of(e);
    let end = end_of(e);
    let kind = kind_of(e);
    let last = kind_of(b.prev);
    let shared = share_day(b.prev, e);
    (b.least <= event_key_of(e))
        & ((taken <= date)
            & (!((kind == SUSPENSION) & (end < date))
                & (!shared
                    & (!((last == CONCLUSION) & (kind == CONCLUSION))
                        & !((kind == CONCLUSION) & (date < b.latest))))))
}

// What is asked of the next event once e is passed.
fn passed(b: Before, e: u64) -> Before
    ensures { (result.least ≡ event_key_of e + 1) × (result.prev ≡ e) × (result.latest ≡ max b.latest (max (date_of e) (cond (eqb (end_of e) never) 0 (end_of e)))) }
{
    let least = event_key_of(e) + 1;
    let latest = later(b.latest, e);
    Before {
        least,
        prev: e,
        latest,
    }
}

// The events of the case in row i, of w bytes: the rows from j on, as long as they name it. The row at which they end, where they are good.
// Its clauses stay: a struct that holds them with register, width and rows would ask more of a caller than this public function does.
#[tactic(auto, using(crate::proofs::Within::rows_before))]
pub fn case_events(reg: &[u8], w: usize, i: usize, j: usize, rows: usize) -> Option<usize>
    requires { RowWidth w × (i < rows) × (j ≤ rows) × (row_at (home_care w) rows ≤ length reg.now) }
    ensures { result ≡ ran w (case_at w reg.now i) j (events_from (home_care w) reg.now j (rows - j)) }
{
    let case = row_at(reg, w, i);
    let taken = rows::reader::get(case, TAKEN, DAY_BITS);
    let mut b = Before {
        least: 0,
        prev: 0,
        latest: 0,
    };
    for k in j..rows {
        if !stands(reg, w, k, rows, case, CASE_KEY) {
            return Some(k);
        }
        let row = RowBytes {
            bytes: row_at(reg, w, k),
        };
        let e = event_of(row.bytes);
        if !(row.event_row_allowed(e) & fits_after(taken, b, e)) {
            return None;
        }
        b = passed(b, e);
    }
    Some(rows)
}
