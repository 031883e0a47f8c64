// A row's bytes, with the fact that they have room for the fields.
ghost use Rattle.std.specs.Prelude.{length};
ghost use Rattle.home_care.specs.Fits.{RowWidth};

#[derive(Clone, Copy)]
pub struct RowBytes<'a> {
    pub bytes: &'a [u8],
    pub ghost wide: { RowWidth (length bytes.now) },
}
