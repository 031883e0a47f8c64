// The key that a case's probe holds, with the writer that wrote it: a row takes it over with the probe's bytes, and no key is packed twice.
ghost use Rattle.std.specs.Prelude.{◌≡◌, length};
ghost use Rattle.register.specs.Search.{probe_key};
ghost use Rattle.home_care.specs.Row.{row_bytes, key_bits};
ghost use Rattle.apply.specs.RowBytes.{Keyed};

use rows::reader::get;
use rows::writer::Bits;

// A key's 662 bits are so many whole bytes, and so many bits more.
const BYTES: usize = 82;

const MORE: usize = 6;

// A row with a case's key, and the writer behind it.
#[derive(Clone, Copy)]
pub struct Probe<'a> {
    pub row: &'a [u8],
    pub key: Bits,
    pub ghost keyed: { Keyed row.now key (probe_key row_bytes key_bits row.now) },
}

pub fn key_in(row: &[u8]) -> Probe
    requires { length row.now ≡ row_bytes }
    ensures { result.row.now ≡ row.now }
{
    let key = Bits {
        acc: get(row, 8 * BYTES, MORE),
        have: MORE,
        at: BYTES,
    };
    Probe { row, key }
}
