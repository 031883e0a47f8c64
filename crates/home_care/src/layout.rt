// The home-care register's rows (RULES.md, R10 to R34): where each field begins, counted from the front of the row, and how many bits it has.

// The bytes of a row. Behind the fields that are named below zero bits stand, to the row's end.
pub const ROW: usize = 96;

// And of one before events kept evaluations (RULES.md, 16 A register converted).
pub const OLD_ROW: usize = 91;

// A region, a character, a day number, a birth year, a scale.
pub const REGION_BITS: usize = 8;

pub const CHAR_BITS: usize = 7;

pub const DAY_BITS: usize = 17;

pub const BIRTH_BITS: usize = 12;

pub const SCALE_BITS: usize = 2;

// ---- a key, at the front of every row

pub const REGION: usize = 0;

pub const ASL: usize = 8;

pub const TAKEN: usize = 29;

pub const ID: usize = 46;

pub const CASE_KEY: usize = 662;

// ---- behind it in a case's row

pub const BIRTH: usize = 662;

pub const PREVALENTE: usize = 674;

pub const SCALES: usize = 709;

pub const INFECTION: usize = 719;

pub const AFTER_CASE: usize = 721;

// ---- behind it in an event's row

pub const KIND: usize = 662;

pub const DATE: usize = 664;

pub const CODE: usize = 681;

pub const END: usize = 688;

pub const ACCESSES: usize = 705;

pub const CONFERMA: usize = 712;

pub const AFTER_EVENT: usize = 714;

// ---- behind that an evaluation: six scales, then a prevalente

pub const EVALUATED_INFECTION: usize = 724;

pub const EVALUATED_PREVALENTE: usize = 726;

pub const AFTER_EVALUATION: usize = 761;

pub const EVALUATION_BITS: usize = 47;

pub const KIND_BITS: usize = 2;

pub const CODE_BITS: usize = 7;

pub const ACCESSES_BITS: usize = 7;

pub const CONFERMA_BITS: usize = 2;

pub const EVENT_BITS: usize = 52;

// An event's own key, what its key has after its case's: kind and date, and of an Erogazione the code; the bits of the longest, the event's bits after
// that, and no own key is so large.
pub const OWN_BITS: usize = 26;

pub const PAST_OWN: usize = 26;

pub const OWN_KEYS: u64 = 67108864;

// The bits of kind and date.
pub const DATED_BITS: usize = 19;

// ---- values

// R34: the conferma with which an evaluation is kept.
pub const ANEW: u64 = 2;

// The days of 1900 to 2099; all ones stands for no end.
pub const DAYS: u64 = 73049;

pub const NEVER: u64 = 131071;

// 11: nobody was born before.
pub const FIRST_BIRTH: u64 = 1880;
