// The type of a record: I, V or C. It stays a byte: `type_of` says of every byte which it is, and an enum would refuse some.
ghost use Rattle.std.specs.Prelude.{◌≡◌};
ghost use Rattle.model.specs.Transmission.{is_insert, is_cancel};
ghost use Rattle.home_care.specs.Record.{type_of};

pub fn inserts(tipo: u8) -> bool
    ensures { result ≡ is_insert (type_of tipo) }
{
    tipo == b'I'
}

pub fn cancels(tipo: u8) -> bool
    ensures { result ≡ is_cancel (type_of tipo) }
{
    (tipo != b'I') & (tipo != b'V')
}
