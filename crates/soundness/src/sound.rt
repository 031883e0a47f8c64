// Sound or not (RULES.md, 5 Sound means), decided in one pass over the rows.
ghost use Rattle.std.specs.Prelude.{◌≡◌, ◌&&◌, ◌||◌, ◌+◌, ◌-◌, ◌≤◌, eqb, ltb, length};
ghost use Rattle.register.specs.RoomAndEmptying.{room};
ghost use Rattle.register.specs.Layout.{row_at, row_in, case_rest};
ghost use Rattle.register.specs.State.{split, cases_from, events_from};
ghost use Rattle.register.specs.Sound.{valid};
ghost use Rattle.home_care.specs.Allowed.{case_row_allowed_wide};
ghost use Rattle.home_care.specs.Row.{home_care};
ghost use Rattle.home_care.specs.Fits.{RowWidth};
ghost use Rattle.soundness.specs.Sound.{home_care_rules, is_sound_wide, is_sound};
ghost use Rattle.soundness.specs.Walk.{case_at};

use crate::one_case::case_events;
use days::table::Table;
use home_care::layout::{CASE_KEY, ROW};
use home_care::row::RowBytes;
use home_care::texts::all_zero;
use register::counts::count;
use register::room::room_of;
use register::row::row_at;
use register::search::below;

// Whether row i is allowed as a case, and above the case before it.
#[tactic(auto, using(crate::proofs::Within::rows_before))]
fn case_fits(t: &Table, reg: &[u8], w: usize, i: usize) -> bool
    requires { RowWidth w × (row_at (home_care w) (i + 1) ≤ length reg.now) }
    ensures { result ≡ case_row_allowed_wide w (split (case_rest (home_care w)) (row_in (home_care w) reg.now i))
        && (eqb i 0 || ltb (case_at w reg.now (i - 1)) (case_at w reg.now i)) }
{
    let row = RowBytes {
        bytes: row_at(reg, w, i),
    };
    if !row.case_row_allowed(t) {
        return false;
    }
    if i == 0 {
        return true;
    }
    below(reg, w, i - 1, row.bytes, CASE_KEY, 0)
}

// Whether the rows are valid, in one pass with two moving places: case i, and its events from row j on.
#[tactic(auto, using(crate::proofs::Within::rows_before))]
fn rows_valid(t: &Table, reg: &[u8], w: usize, cases: usize, rows: usize) -> bool
    requires { RowWidth w × (cases ≤ rows) × (rows ≤ room (home_care w) (length reg.now)) × (row_at (home_care w) rows ≤ length reg.now) }
    ensures { result ≡ valid (home_care w) (home_care_rules w) (length reg.now)
        (record { cases = cases_from (home_care w) reg.now 0 cases; events = events_from (home_care w) reg.now cases (rows - cases) }) }
{
    let mut j = cases;
    for i in 0..cases {
        if !case_fits(t, reg, w, i) {
            return false;
        }
        let Some(end) = case_events(reg, w, i, j, rows) else {
            return false;
        };
        j = end;
    }
    j == rows
}

// Whether a register's bytes are sound in rows of w bytes, whatever they are.
#[tactic(auto, using(register::proofs::States::room_holds))]
pub fn sound_wide(t: &Table, reg: &[u8], w: usize) -> bool
    requires { RowWidth w }
    ensures { result ≡ is_sound_wide w reg.now }
{
    if reg.len() < 4 {
        return false;
    }
    let cases = count(reg, 0);
    let rows = cases + count(reg, 2);
    if room_of(w, reg.len()) < rows {
        return false;
    }
    if !rows_valid(t, reg, w, cases, rows) {
        return false;
    }
    let end = 4 + w * rows;
    all_zero(&reg[end..])
}

// Whether they are sound in the rows of the register.
#[tactic(auto, unfolding(crate::specs::Sound::is_sound))]
pub fn sound(t: &Table, reg: &[u8]) -> bool
    ensures { result ≡ is_sound reg.now }
{
    sound_wide(t, reg, ROW)
}

// A whole register, by a table of its own: its 9,600 bytes of stack are free again when this returns, before a file is read.
pub fn is_sound(reg: &[u8]) -> bool
    ensures { result ≡ is_sound reg.now }
{
    let t = days::table::make();
    sound(&t, reg)
}
