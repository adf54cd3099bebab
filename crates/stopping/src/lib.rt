// Rows of a table at the bounds of ranges, for the filling of tables.
//
// Every public function is total: where the ranges are not all in the bytes, or where there is no room, no row is put. Row k has its
// bound in words 3k, 3k + 1 and 3k + 2 of `bounds`, the highest word first.
#![tactic(auto)]

ghost use Rattle.std.specs.Prelude.{◌≡◌, ◌+◌, ◌*◌, ◌^◌, ◌≤◌, ◌<◌, length};
ghost use Rattle.ticks.specs.Meaning.{highest};
ghost use Rattle.codec.specs.Ids.{InWords, item_of};
ghost use Rattle.tables.specs.MethodWords.{bound_at};
ghost use Rattle.sampling.specs.MethodRows.{bound_in, turn};
ghost use Rattle.sampling.specs.MethodRows.{put_bound, rows_of, grown, stopped, first_row, after, last_row};
ghost use Rattle.sampling.specs.MethodStops.{rows_fit, all_stopped, span_of, spanned, span_stopped};

use codec::{Item, Span};
use lookup::Cursor;
use sampling::Turn;

// each word of the top item id
const TOP: u64 = u64::MAX;

// the first item of all, and the top one
const FIRST: Item = Item {
    high: 0,
    middle: 0,
    low: 0,
};

const LAST: Item = Item {
    high: TOP,
    middle: TOP,
    low: TOP,
};

// Ranges in bytes: the place of the first of them, and how many there are.
#[derive(Clone, Copy)]
struct Ranges<'a> {
    s: &'a [u8],
    at: usize,
    count: u32,
}

// The first and the last row of a span, and the last row.
#[derive(Clone, Copy)]
pub struct Spanned {
    pub from: u32,
    pub top: u32,
    pub rows: u32,
}

// ---- rows

impl<'a> Ranges<'a> {
    // The bound of range n.
    fn bound(self, n: u32) -> Item
        requires { self.at + 28 * n + 24 ≤ length self.s.now }
        ensures { result ≡ bound_in self.entry.s.now self.entry.at n }
    {
        let at = self.at + 28 * (n as usize);
        Item::from_bytes(&self.s[at..at + 24])
    }
}

// The next bound of two lists of ranges, of which i and j are passed: the smaller one, the first list's where both are the same.
fn next_bound(x: Ranges<'_>, i: u32, y: Ranges<'_>, j: u32) -> Turn
    requires { (x.at + 28 * x.count ≤ length x.s.now) × (y.at + 28 * y.count ≤ length y.s.now) × (i ≤ x.count) × (j ≤ y.count)
        × (i + j < x.count + y.count) }
    ensures { (result ≡ turn x.entry.s.now x.entry.count x.entry.at i y.entry.s.now y.entry.count y.entry.at j)
        × (result.first ≤ x.entry.count) × (result.second ≤ y.entry.count) × (result.first + result.second ≡ i + j + 1) }
{
    if y.count <= j {
        let bound = x.bound(i);
        return Turn {
            bound,
            first: i + 1,
            second: j,
        };
    }
    let after = y.bound(j);
    if x.count <= i {
        return Turn {
            bound: after,
            first: i,
            second: j + 1,
        };
    }
    let before = x.bound(i);
    if after < before {
        return Turn {
            bound: after,
            first: i,
            second: j + 1,
        };
    }
    Turn {
        bound: before,
        first: i + 1,
        second: j,
    }
}

// The bound of a row.
fn row_bound(bounds: &[u64], k: u32) -> Item
    requires { 3 * k + 2 < length bounds.now }
    ensures value { item_of result ≡ bound_at bounds.now k }
    ensures in_words { InWords result }
{
    let i = 3 * (k as usize);
    Item {
        high: bounds[i],
        middle: bounds[i + 1],
        low: bounds[i + 2],
    }
}

// Gives a row a bound.
fn put_bound(bounds: &mut [u64], k: u32, b: Item)
    requires { 3 * k + 2 < length bounds.old }
    ensures { (bounds.new ≡ put_bound bounds.old k b) × (length bounds.new ≡ length bounds.old) }
{
    let i = 3 * (k as usize);
    bounds[i] = b.high;
    bounds[i + 1] = b.middle;
    bounds[i + 2] = b.low;
}

// A row after the last one for a bound that is above that row's. Gives the last row.
fn next_row(bounds: &mut [u64], top: u32, b: Item) -> u32
    requires { (3 * top + 5 < length bounds.old) × (top + 1 < 2 ^ 32) }
    ensures { (rows_of bounds.new result ≡ grown (rows_of bounds.old top) b)
        × (top ≤ result) × (result ≤ top + 1) × (length bounds.new ≡ length bounds.old) }
{
    if row_bound(bounds, top) < b {
        put_bound(bounds, top + 1, b);
        return top + 1;
    }
    top
}

// The rows of the items from the first to the last: row `from` at the first item, and one row for each later bound of two lists of
// ranges, up to the last item. Gives the last row.
fn stops(
    x: Ranges<'_>,
    y: Ranges<'_>,
    first: Item,
    last: Item,
    bounds: &mut [u64],
    from: u32,
) -> u32
    requires { (x.at + 28 * x.count ≤ length x.s.now) × (y.at + 28 * y.count ≤ length y.s.now) × (from + x.count + y.count < 2 ^ 32)
        × (3 * (from + x.count + y.count + 1) ≤ length bounds.old) }
    ensures { (rows_of bounds.new result
        ≡ stopped x.entry.s.now x.entry.count x.entry.at y.entry.s.now y.entry.count y.entry.at first last bounds.old from)
        × (from ≤ result) × (result ≤ from + x.entry.count + y.entry.count) × (length bounds.new ≡ length bounds.old) }
{
    put_bound(bounds, from, first);
    let mut top = from;
    let mut i = 0;
    let mut j = 0;
    for _k in 0..x.count + y.count {
        let next = next_bound(x, i, y, j);
        let b = next.bound;
        if last < b {
            return top;
        }
        top = next_row(bounds, top, b);
        i = next.first;
        j = next.second;
    }
    top
}

// ---- the ends of a span

// The first row of a span that begins at an item: row 1, which is put at the first item of all, or the row after it.
fn first_row(bounds: &mut [u64], first: Item) -> u32
    requires { 5 < length bounds.old }
    ensures { (rows_of bounds.new result ≡ first_row bounds.old first)
        × (1 ≤ result) × (result ≤ 2) × (length bounds.new ≡ length bounds.old) }
{
    put_bound(bounds, 1, FIRST);
    if first == FIRST {
        return 1;
    }
    2
}

// The item after one that is not the top one: a word that is full becomes 0, and the word above it takes one more.
fn after_item(b: Item) -> Item
    requires { item_of b < highest }
    ensures { result ≡ after b }
{
    if b.low < TOP {
        return Item {
            low: b.low + 1,
            ..b
        };
    }
    if b.middle < TOP {
        return Item {
            middle: b.middle + 1,
            low: 0,
            ..b
        };
    }
    Item {
        high: b.high + 1,
        middle: 0,
        low: 0,
    }
}

// The last row, after row `top`, the last one of a span that ends at an item: one more where an item follows, as nothing follows the
// top one.
fn last_row(bounds: &mut [u64], top: u32, last: Item) -> u32
    requires { (3 * top + 5 < length bounds.old) × (top + 1 < 2 ^ 32) }
    ensures { (rows_of bounds.new result ≡ last_row (rows_of bounds.old top) last)
        × (length bounds.new ≡ length bounds.old) }
{
    if last == LAST {
        return top;
    }
    let next = after_item(last);
    put_bound(bounds, top + 1, next);
    top + 1
}

// ---- all rows

// Are the ranges of a cursor, and b ranges from a place on, all in their bytes, and is there room for the rows up to n in a list of the
// given length.
fn rows_fit(s: &[u8], c: Cursor, t: &[u8], b: u32, bt: usize, n: usize, bounds: usize) -> bool
    ensures { result ≡ rows_fit s.now c t.now b bt n bounds }
{
    // early returns, as in `raising::fits`
    if codec::beyond(s.len(), c.next, 28 * (c.left as usize)) {
        return false;
    }
    if codec::beyond(t.len(), bt, 28 * (b as usize)) {
        return false;
    }
    if tables::ROWS <= n {
        return false;
    }
    3 * (n + 1) <= bounds
}

// The rows of all items: row 1 at the first item of all, and one row for each later bound of the ranges of s from a cursor on, and of
// the b ranges of t from a place on. Gives the last row.
pub fn all_stops(s: &[u8], c: Cursor, t: &[u8], b: u32, bt: usize, bounds: &mut [u64]) -> u32
    ensures { (rows_of bounds.new result ≡ all_stopped s.now c t.now b bt bounds.old)
        × (result ≤ c.left + b + 1) × (length bounds.new ≡ length bounds.old) }
{
    let n = c.left as usize + b as usize + 1;
    if rows_fit(s, c, t, b, bt, n, bounds.len()) {
        let x = Ranges {
            s,
            at: c.next,
            count: c.left,
        };
        let y = Ranges {
            s: t,
            at: bt,
            count: b,
        };
        return stops(x, y, FIRST, LAST, bounds, 1);
    }
    0
}

// The rows of a span, where there is room: row 1 at the first item of all, those from the first item of the span to its last one, and
// one behind it.
fn put_span(s: &[u8], c: Cursor, span: Span, bounds: &mut [u64]) -> Spanned
    requires { (c.next + 28 * c.left ≤ length s.now) × (c.left + 4 < 2 ^ 32) × (3 * (c.left + 4) ≤ length bounds.old) }
    ensures { (span_of bounds.new result.from result.top result.rows ≡ spanned s.now c span.first span.last bounds.old)
        × (result.top ≤ c.left + 2) × (length bounds.new ≡ length bounds.old) }
{
    let x = Ranges {
        s,
        at: c.next,
        count: c.left,
    };
    let none = Ranges { count: 0, ..x };
    let from = first_row(bounds, span.first);
    let top = stops(x, none, span.first, span.last, bounds, from);
    let rows = last_row(bounds, top, span.last);
    Spanned { from, top, rows }
}

// The rows of a span. Gives the first and the last row of the span, and the last row.
pub fn span_stops(s: &[u8], c: Cursor, span: Span, bounds: &mut [u64]) -> Spanned
    ensures { (span_of bounds.new result.from result.top result.rows ≡ span_stopped s.now c span.first span.last bounds.old)
        × (result.top ≤ c.left + 2) × (length bounds.new ≡ length bounds.old) }
{
    let n = c.left as usize + 3;
    if rows_fit(s, c, s, 0, c.next, n, bounds.len()) {
        return put_span(s, c, span, bounds);
    }
    Spanned {
        from: 1,
        top: 0,
        rows: 0,
    }
}
