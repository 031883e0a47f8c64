// The rows of a lent table. A cell past the end is 0, a name past the end is empty: no table needs to be well formed.
ghost use Rattle.std.specs.Prelude.{◌≡◌, List, [], ℕ, ◌<◌, ◌≤◌, get_or};
ghost use Rattle.schema.specs.Table.{cell, name_at, head_at, first_cell, many_cell, attr_cell, attrs_cell, kind_cell};
ghost use Rattle.schema.specs.CountedElements.{marked};
ghost use Rattle.schema.specs.View.{IsKind};

use markup::bytes::part;

// How many cells a row has, and which: the name's place in the pool and its length, how often an element may stand in its place, its kind with a number and a
// limit, the first child or range and how many, the first attribute's row and how many.
pub const CELLS: usize = 11;

// The places stay numbers: they are columns of a table that is data, not kinds of anything.
pub const NAME: usize = 0;

pub const LENGTH: usize = 1;

pub const LEAST: usize = 2;

pub const MOST: usize = 3;

pub const KIND: usize = 4;

pub const NUMBER: usize = 5;

pub const LIMIT: usize = 6;

pub const FIRST: usize = 7;

pub const MANY: usize = 8;

pub const ATTR: usize = 9;

pub const ATTRS: usize = 10;

// The levels left for the children of a root.
pub const BELOW_ROOT: usize = 11;

// What a row is: an element with children, one that may hold anything, or a leaf by its texts.
#[derive(Clone, Copy)]
pub enum Kind {
    Group,
    Another,
    Date,
    Chars,
    Signed,
    Plain,
    Wide,
}

impl From<u16> for Kind {
    ghost from_gives = { λ n k. IsKind n k };

    // Any number past the others is that of a number of so many digits.
    fn from(n: u16) -> Self {
        match n {
            0 => Kind::Group,
            1 => Kind::Another,
            2 => Kind::Date,
            3 => Kind::Chars,
            4 => Kind::Signed,
            5 => Kind::Plain,
            _ => Kind::Wide,
        }
    }
}

// So many rows, or ranges, from the first on: both are numbers that a cell holds.
#[derive(Clone, Copy)]
pub struct Rows {
    pub first: usize,
    pub n: usize,
    pub ghost first_small: { first < 65536 },
    pub ghost few: { n < 65536 },
}

// A schema's tables: its rows, the pool of its names and the pool of its ranges. The file and the place in it go beside: another place at each call.
#[derive(Clone, Copy)]
pub struct Tables<'a> {
    pub table: &'a [u16],
    pub pool: &'a [u8],
    pub ranges: &'a [u16],
}

impl<'a> Tables<'a> {
    // One test tells that a row is whole, for all its cells that are read.
    pub fn cell(&self, row: usize, c: usize) -> u16
        ensures { result ≡ cell self.now.table.now [] [] row c }
    {
        if (row < self.table.len() / CELLS) & (c < CELLS) {
            return self.table[CELLS * row + c];
        }
        self.cell_past(row, c)
    }

    // A cell that may be past the end.
    #[cold]
    #[inline(never)]
    fn cell_past(&self, row: usize, c: usize) -> u16
        ensures { result ≡ cell self.now.table.now [] [] row c }
    {
        match row
            .checked_mul(CELLS)
            .and_then(|first| first.checked_add(c))
        {
            Some(i) => self.table.get(i).copied().unwrap_or(0),
            None => 0,
        }
    }

    pub fn kind(&self, row: usize) -> Kind
        ensures { IsKind (cell self.now.table.now [] [] row kind_cell) result }
    {
        Kind::from(self.cell(row, KIND))
    }

    pub fn name_of(&self, row: usize) -> &'a [u8]
        ensures { result.now ≡ name_at self.now.table.now self.now.pool.now [] row }
    {
        let start = self.cell(row, NAME) as usize;
        let n = self.cell(row, LENGTH) as usize;
        part(self.pool, start, start + n)
    }

    // The rows that two of a row's cells tell.
    fn rows_at(&self, row: usize, first: usize, many: usize) -> Rows
        ensures { (result.first ≡ cell self.now.table.now [] [] row first) × (result.n ≡ cell self.now.table.now [] [] row many) }
    {
        Rows {
            first: self.cell(row, first) as usize,
            n: self.cell(row, many) as usize,
        }
    }

    // The rows of the children in a group, or the ranges of a leaf.
    pub fn children(&self, row: usize) -> Rows
        ensures { (result.first ≡ cell self.now.table.now [] [] row first_cell) × (result.n ≡ cell self.now.table.now [] [] row many_cell) }
    {
        self.rows_at(row, FIRST, MANY)
    }

    pub fn attributes(&self, row: usize) -> Rows
        ensures { (result.first ≡ cell self.now.table.now [] [] row attr_cell) × (result.n ≡ cell self.now.table.now [] [] row attrs_cell) }
    {
        self.rows_at(row, ATTR, ATTRS)
    }

    // A number of the ranges' pool.
    pub fn number_at(&self, i: usize) -> u16
        ensures { result ≡ get_or self.now.ranges.now i 0 }
    {
        self.ranges.get(i).copied().unwrap_or(0)
    }

    // 1 where an element of a row is counted.
    pub fn marked(&self, row: usize) -> usize
        ensures { ((pool ranges : List ℕ) → result ≡ marked (head_at self.now.table.now pool ranges row)) × (result ≤ 1) }
    {
        match self.kind(row) {
            Kind::Group => (self.cell(row, NUMBER) != 0) as usize,
            _ => 0,
        }
    }
}
