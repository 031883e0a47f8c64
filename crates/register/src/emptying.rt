// A register emptied (RULES.md, C7).
ghost use Rattle.std.specs.Prelude.{◌≡◌};
ghost use Rattle.register.specs.RoomAndEmptying.{emptied};
ghost use Rattle.register.specs.Emptying.{answer_of};

use crate::moving::clear;

// A register under 4 bytes has no room for its counts.
#[derive(Clone, Copy, Debug, PartialEq, Eq)]
pub struct TooShort;

impl From<TooShort> for u64 {
    ghost from_gives = { λ _ number. number ≡ 3 };

    fn from(_short: TooShort) -> u64 {
        3
    }
}

// Empties the register, if it isn't too short.
pub fn empty(reg: &mut [u8]) -> Result<(), TooShort>
    ensures { (answer_of result ≡ (emptied reg.old).answer) × (reg.new ≡ (emptied reg.old).register) }
{
    if reg.len() < 4 {
        return Err(TooShort);
    }
    clear(reg);
    Ok(())
}
