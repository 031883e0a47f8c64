// The conversion: nothing is written before 3 and 33 are excluded.
ghost use Rattle.std.specs.Prelude.{◌≡◌, ◌++◌, ◌+◌, ◌-◌, ◌*◌, ◌≤◌, length, replicate};
ghost use Rattle.home_care.specs.Row.{row_bytes, old_bytes};
ghost use Rattle.widening.specs.Converted.{rows_held, in_bytes, converted};
ghost use Rattle.widening.specs.View.{number_of, answer_of};

use home_care::layout::{OLD_ROW, ROW};
use register::counts::count;
use register::room::room_of;
use register::row::row_at;
use soundness::sound::sound_wide;

// Why a register is not converted: it is not sound in rows of 91 bytes, or the new one is too short for its rows.
#[derive(Clone, Copy)]
pub enum Unconverted {
    Unsound,
    TooShort,
}

impl From<Unconverted> for u64 {
    ghost from_gives = { λ reason n. n ≡ number_of reason };

    fn from(reason: Unconverted) -> u64 {
        match reason {
            Unconverted::Unsound => 3,
            Unconverted::TooShort => 33,
        }
    }
}

// A row of before over one of now: its bytes, then zeros.
fn put_wide(part: &mut [u8], row: &[u8])
    requires { (length part.old ≡ row_bytes) × (length row.now ≡ old_bytes) }
    ensures { part.new ≡ row.now ++ replicate (row_bytes - old_bytes) 0 }
{
    part[..OLD_ROW].copy_from_slice(row);
    part[OLD_ROW..].fill(0);
}

// The counts, the rows and zeros behind them.
fn lay(old: &[u8], rows: usize, new: &mut [u8])
    requires { (rows ≡ rows_held old.now) × (4 + old_bytes * rows ≤ length old.now) × (4 + row_bytes * rows ≤ length new.old) }
    ensures { new.new ≡ in_bytes (length new.old) old.now }
{
    new[..4].copy_from_slice(&old[..4]);
    // No `chunks_exact_mut`: once its loop is over, a proof knows nothing of what was written through it.
    for i in 0..rows {
        let from = 4 + ROW * i;
        put_wide(&mut new[from..from + ROW], row_at(old, OLD_ROW, i));
    }
    new[4 + ROW * rows..].fill(0);
}

// Converts, or leaves every byte as it is.
pub fn convert(old: &[u8], new: &mut [u8]) -> Result<(), Unconverted>
    ensures { (answer_of result ≡ (converted old.now new.old).answer) × (new.new ≡ (converted old.now new.old).register) }
{
    let t = days::table::make();
    if !sound_wide(&t, old, OLD_ROW) {
        return Err(Unconverted::Unsound);
    }
    let rows = count(old, 0) + count(old, 2);
    if new.len() < 4 {
        return Err(Unconverted::TooShort);
    }
    if room_of(ROW, new.len()) < rows {
        return Err(Unconverted::TooShort);
    }
    lay(old, rows, new);
    Ok(())
}
