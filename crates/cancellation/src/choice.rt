// What a cancellation file is written from: a case's rows, and the days of a quarter.
ghost use Rattle.cancellation.specs.Rows.{RowsIn};

// The rows of a case's events in the register, from lo up to hi, the two days between which an event is chosen, and the fact that the rows stand there.
#[derive(Clone, Copy)]
pub struct Choice<'a> {
    pub reg: &'a [u8],
    pub lo: usize,
    pub hi: usize,
    pub first: u64,
    pub last: u64,
    pub ghost rows_in: { RowsIn reg.now lo hi },
}
