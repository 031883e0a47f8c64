// Numbers, dates and texts of an element's attributes and children. The whole file was held against its schema before any record is read (answer 6), so each text
// is known to be of its type: what reads it requires that, and has no refusal to pass on.
ghost use Rattle.std.specs.Prelude.{◌≡◌, true, false, cond, ◌<◌, [], length, drop, get_or, MatchOption};
ghost use Rattle.laws.specs.Decimal.{decimal};
ghost use Rattle.days.specs.DayNumbers.{day_count};
ghost use Rattle.days.specs.Dates.{is_date, day_of};
ghost use Rattle.markup.specs.Elements.{Tree};
ghost use Rattle.markup.specs.View.{part, held};
ghost use Rattle.nodes.specs.Lookup.{child_of, attr_of, has_attr, text_of};
ghost use Rattle.nodes.specs.Stands.{Stands};
ghost use Rattle.home_care.specs.Row.{never};
ghost use Rattle.tracks.specs.EventElements.{value_at, stands_at, text_at};
ghost use Rattle.tracks.specs.Typed.{Found, IsNumber};

use days::calendar::day_number;
use days::table::Table;
use home_care::layout::NEVER;
use markup::bytes::part;
use nodes::children::child;
use nodes::values::{attribute, text};
use nodes::{Node, Span};

// The number that digits write.
fn number(x: &[u8]) -> u64
    requires { IsNumber x.now }
    ensures { result ≡ decimal x.now }
{
    let mut n = 0;
    for b in x {
        n = n * 10 + u64::from(*b - b'0');
    }
    n
}

// The day of a date.
fn day_of(t: &Table, x: &[u8]) -> u64
    requires { is_date x.now ≡ true }
    ensures { (result ≡ day_of x.now) × (result < day_count) }
{
    let year = number(&x[0..4]) as u32;
    let month = number(&x[5..7]) as u32;
    let day = number(&x[8..10]) as u32;
    day_number(t, year, month, day) as u64
}

// The value of an attribute, where it stands.
fn attr<'a>(s: &'a [u8], n: Node, x: &[u8]) -> Option<&'a [u8]>
    ensures { (tree : Tree) → Stands n.levels (drop n.at s.now) tree → MatchOption result ((attr_of x.now tree ≡ []) × (has_attr x.now tree ≡ false)) (λ v. (v.now ≡ attr_of x.now tree) × (has_attr x.now tree ≡ true)) }
{
    let v = attribute(s, n, x)?;
    Some(part(s, v.start, v.end))
}

// The text of an attribute; of one that is missing it is empty.
fn attr_text<'a>(s: &'a [u8], n: Node, x: &[u8]) -> &'a [u8]
    ensures { (tree : Tree) → Stands n.levels (drop n.at s.now) tree → result.now ≡ attr_of x.now tree }
{
    attr(s, n, x).unwrap_or(b"")
}

// The day of an attribute.
pub fn attr_day(t: &Table, s: &[u8], n: Node, x: &[u8]) -> u64
    requires { Found s.now n (λ tree. is_date (attr_of x.now tree) ≡ true) }
    ensures { ((tree : Tree) → Stands n.levels (drop n.at s.now) tree → result ≡ day_of (attr_of x.now tree)) × (result < day_count) }
{
    day_of(t, attr_text(s, n, x))
}

// The day of an attribute that may be missing, as it is where the name is empty: then the number that a row keeps for it.
pub fn attr_end(t: &Table, s: &[u8], n: Node, x: &[u8]) -> u64
    requires { Found s.now n (λ tree. stands_at x.now tree ≡ true → is_date (value_at x.now tree) ≡ true) }
    ensures { (tree : Tree) → Stands n.levels (drop n.at s.now) tree → result ≡ cond (stands_at x.now tree) (day_of (value_at x.now tree)) never }
{
    if x.is_empty() {
        return NEVER;
    }
    match attr(s, n, x) {
        Some(v) => day_of(t, v),
        None => NEVER,
    }
}

// The number of an attribute; 0 where it is missing, as it is where the name is empty: that is what a row keeps.
pub fn attr_number(s: &[u8], n: Node, x: &[u8]) -> u64
    requires { Found s.now n (λ tree. IsNumber (value_at x.now tree)) }
    ensures { (tree : Tree) → Stands n.levels (drop n.at s.now) tree → result ≡ decimal (value_at x.now tree) }
{
    if x.is_empty() {
        return 0;
    }
    number(attr_text(s, n, x))
}

// The first byte of an attribute's value.
pub fn attr_byte(s: &[u8], n: Node, x: &[u8]) -> u8
    requires { Found s.now n (λ tree. 0 < length (attr_of x.now tree)) }
    ensures { (tree : Tree) → Stands n.levels (drop n.at s.now) tree → result ≡ get_or (attr_of x.now tree) 0 0 }
{
    attr_text(s, n, x)[0]
}

// The text of a child.
pub fn child_text(s: &[u8], n: Node, x: &[u8]) -> Span
    ensures { ((tree : Tree) → Stands n.levels (drop n.at s.now) tree → part s.now result.start result.end ≡ text_of (child_of x.now tree)) × held s.now result.start result.end }
{
    text(s, child(s, n, x))
}

// The number of an element's text.
pub fn text_number(s: &[u8], n: Node) -> u64
    requires { Found s.now n (λ tree. IsNumber (text_of tree)) }
    ensures { (tree : Tree) → Stands n.levels (drop n.at s.now) tree → result ≡ decimal (text_of tree) }
{
    let v = text(s, n);
    number(part(s, v.start, v.end))
}

// The number of a child.
pub fn child_number(s: &[u8], n: Node, x: &[u8]) -> u64
    requires { Found s.now n (λ tree. IsNumber (text_of (child_of x.now tree))) }
    ensures { (tree : Tree) → Stands n.levels (drop n.at s.now) tree → result ≡ decimal (text_of (child_of x.now tree)) }
{
    text_number(s, child(s, n, x))
}

// The number of a child, or of an attribute.
pub fn text_number_at(s: &[u8], n: Node, in_child: bool, x: &[u8]) -> u64
    requires { Found s.now n (λ tree. IsNumber (text_at in_child x.now tree)) }
    ensures { (tree : Tree) → Stands n.levels (drop n.at s.now) tree → result ≡ decimal (text_at in_child x.now tree) }
{
    if in_child {
        return child_number(s, n, x);
    }
    attr_number(s, n, x)
}
