// The attributes of a start tag, from the place after its name on.
ghost use Rattle.std.specs.Prelude.{◌≡◌, not, ◌||◌, List, [], ℕ, drop};
ghost use Rattle.laws.specs.Lists.{all, any, same};
ghost use Rattle.markup.specs.View.{OfPairs};
ghost use Rattle.schema.specs.Texts.{fits_text};
ghost use Rattle.schema.specs.Shape.{attr_fits, attrs_fit};
ghost use Rattle.schema.specs.Table.{attr_cell, attrs_cell, cell, name_at, names_at, texts_of, attrs_at};
ghost use Rattle.schema.specs.View.{takes, attr_at, SaysAttribute};

use crate::table::{LEAST, Rows, Tables};
use markup::bytes::{begins, part, peek, same};
use markup::{Attribute, Cursor, TagStep};

// A name is that of a key, or, if it is free, how the key begins. By markup's `same`, not `==`: its clause is in the rules' words, so that this proves alone.
fn takes(free: bool, name: &[u8], key: &[u8]) -> bool
    ensures { result ≡ takes free name.now key.now }
{
    if free {
        begins(key, 0, name)
    } else {
        same(name, key)
    }
}

// The attribute that stands next in a start tag, where one is read.
fn next_attribute(s: &[u8], here: Cursor) -> Option<Attribute>
    ensures { SaysAttribute s.now here.at result }
{
    match here.attributes_step(s)? {
        TagStep::More(a) => Some(a),
        TagStep::Done(_) => None,
    }
}

impl Tables<'_> {
    // One of the names of the rows takes the key.
    fn is_known(&self, rows: Rows, free: bool, key: &[u8]) -> bool
        ensures { (ranges : List ℕ) → result ≡ any (λ x. takes free x key.now) (names_at self.now.table.now self.now.pool.now ranges rows.first rows.n) }
    {
        for k in 0..rows.n {
            if takes(free, self.name_of(rows.first + k), key) {
                return true;
            }
        }
        false
    }

    fn all_known(&self, rows: Rows, free: bool, s: &[u8], after: usize) -> bool
        ensures { (ranges : List ℕ) → OfPairs (all (λ p. any (λ x. takes free x p.key) (names_at self.now.table.now self.now.pool.now ranges rows.first rows.n))) (drop after s.now) result }
    {
        if peek(s, after) == b'>' {
            return true;
        }
        let mut here = Cursor { at: after };
        while let Some(a) = next_attribute(s, here) {
            if !self.is_known(rows, free, part(s, a.name, a.name_end)) {
                return false;
            }
            here = a.next;
        }
        true
    }

    fn is_named(&self, row: usize, key: &[u8]) -> bool
        ensures { result ≡ same (name_at self.now.table.now self.now.pool.now [] row) key.now }
    {
        self.name_of(row) == key
    }

    // An attribute is another than the row's, or its value is of the row's texts.
    fn value_fits(&self, row: usize, named: bool, value: &[u8]) -> bool
        ensures { result ≡ not named || fits_text (texts_of self.now.table.now self.now.pool.now self.now.ranges.now row) value.now }
    {
        !named || self.fits_text(row, value)
    }

    // The attribute of a row: there if it must be, and of its texts if it is there.
    fn attr_fits(&self, row: usize, s: &[u8], after: usize) -> bool
        ensures { OfPairs (λ ps. attr_fits ps (attr_at self.now.table.now self.now.pool.now self.now.ranges.now row)) (drop after s.now) result }
    {
        let mut seen = self.cell(row, LEAST) == 0;
        let mut here = Cursor { at: after };
        while let Some(a) = next_attribute(s, here) {
            let named = self.is_named(row, part(s, a.name, a.name_end));
            if !self.value_fits(row, named, part(s, a.value, a.value_end)) {
                return false;
            }
            seen = seen | named;
            here = a.next;
        }
        seen
    }

    fn all_attrs(&self, rows: Rows, s: &[u8], after: usize) -> bool
        ensures { OfPairs (λ ps. all (attr_fits ps) (attrs_at self.now.table.now self.now.pool.now self.now.ranges.now rows.first rows.n)) (drop after s.now) result }
    {
        for k in 0..rows.n {
            if !self.attr_fits(rows.first + k, s, after) {
                return false;
            }
        }
        true
    }

    // The attributes of an element of a row.
    pub fn attrs_fit(&self, row: usize, s: &[u8], after: usize) -> bool
        ensures { OfPairs (attrs_fit [] (attrs_at self.now.table.now self.now.pool.now self.now.ranges.now (cell self.now.table.now [] [] row attr_cell) (cell self.now.table.now [] [] row attrs_cell))) (drop after s.now) result }
    {
        let rows = self.attributes(row);
        self.all_attrs(rows, s, after) && self.all_known(rows, false, s, after)
    }

    // The attributes of the root.
    pub fn root_attrs_fit(&self, s: &[u8], after: usize) -> bool
        ensures { (ranges : List ℕ) → OfPairs (attrs_fit (names_at self.now.table.now self.now.pool.now ranges (cell self.now.table.now [] [] 0 attr_cell) (cell self.now.table.now [] [] 0 attrs_cell)) []) (drop after s.now) result }
    {
        self.all_known(self.attributes(0), true, s, after)
    }
}
