// Rows of ticks in the bytes of a knowledge, and the first place where one knowledge lacks a tick of another.
//
// Every public function is total. The keys of two knowledges meet through their ids only. A knowledge is passed as its bytes and its
// view, not as a struct of both: lookup takes them apart at each call.
#![tactic(auto)]

ghost use Rattle.std.specs.Prelude.{◌≡◌, true, ◌+◌, ◌*◌, ◌^◌, ◌≤◌, ◌<◌, length};
ghost use Rattle.std.proofs.Math.Option.{none};
ghost use Rattle.codec.specs.Ids.{InWords, item_of, replica_of};
ghost use Rattle.ticks.specs.MethodRows.{lesser, least_with, least_of};
ghost use Rattle.lookup.specs.Method.{element_at, elements_here};
ghost use Rattle.lacking.specs.Method.{id_from, level_of, least_id, Zeros, RowWritten, Filled, Keyed, stop_at, bound_of, nearer_of, lack_of};
ghost use Rattle.lacking.specs.Method.{laid_out, LaidOut, walk_from, lacking_by};

use codec::{Item, Replica, Span};
use layout::ReplicaKey;
use lookup::{Cursor, View};

// a row has a cell for each key that a clock vector may have, and one for the key of no replica
const CELLS: usize = layout::LARGEST_REPLICAS as usize + 1;

// An item and a replica of which a knowledge lacks ticks.
#[derive(Clone, Copy)]
pub struct Lack {
    pub item: Item,
    pub replica: Replica,
}

// ---- the key of an id

// For each of the m ids of t, its key among the r ids of s, where all ids of t are there and there is a cell for each. Where the caller
// has made these tests, the ones here are gone once the call is inlined.
pub fn keys_of(s: &[u8], r: u32, t: &[u8], m: u32, keys: &mut [u32])
    ensures { 27 + 16 * m ≤ length t.now → m ≤ length keys.old → Keyed s.now r t.now m keys.new }
{
    let n = m as usize;
    if t.len() < layout::IDS_PLACE + 16 * n {
        return;
    }
    if keys.len() < n {
        return;
    }
    for k in 0..n {
        let at = layout::IDS_PLACE + 16 * k;
        keys[k] = lookup::key_of(s, r, Replica::from_bytes(&t[at..at + 16])).0;
    }
}

// ---- the range of an item

// The next bound, where it is not above the last item; none where it is not there.
#[inline(always)]
pub fn bound_of(s: &[u8], c: Cursor, last: Item) -> Option<Item>
    ensures stop { c.next + 28 * c.left ≤ length s.now → stop_at result ≡ bound_of s.now c (item_of last) }
    ensures in_words { (i : Item) → result ≡ Some i → InWords i }
{
    if c.left == 0 || codec::beyond(s.len(), c.next, 24) {
        return None;
    }
    let bound = Item::from_bytes(&s[c.next..c.next + 24]);
    if last < bound {
        return None;
    }
    Some(bound)
}

// The nearer of two stops.
fn nearer(a: Option<Item>, b: Option<Item>) -> Option<Item>
    ensures { stop_at result ≡ nearer_of (stop_at a) (stop_at b) }
{
    let Some(i) = a else {
        return b;
    };
    let Some(j) = b else {
        return a;
    };
    if j < i {
        return b;
    }
    a
}

// ---- the row of a vector

// The ticks of the elements of the vector at a place, each in the cell of its key, from the last one to the first, in a row that
// is clear.
fn write_row(s: &[u8], vector: usize, row: &mut [u64])
    requires { Zeros row.old }
    ensures { RowWritten s.now vector row.old row.new }
{
    let n = lookup::elements_at(s, vector);
    for k in (0..n).rev() {
        let at = vector + 8 + 12 * k;
        let key = leaves::first::<4>(&s[at..at + 4]) as usize;
        if key < row.len() {
            row[key] = leaves::first::<8>(&s[at + 4..at + 4 + 8]);
        }
    }
}

// The same in a row that was filled from the vector at another place, or the same.
fn refill(s: &[u8], before: usize, vector: usize, row: &mut [u64])
    ensures { Filled s.now before vector row.old row.new }
{
    if before == vector {
        return;
    }
    row.fill(0);
    write_row(s, vector, row);
}

// ---- what lacks at an item

// The tick in the row of the first knowledge for a key of the second.
fn level(keys: &[u32], row: &[u64], key: ReplicaKey) -> u64
    ensures { result ≡ level_of keys.now row.now key.0 }
{
    let Some(other) = keys.get(key.0 as usize) else {
        return 0;
    };
    row.get(*other as usize).copied().unwrap_or(0)
}

fn lesser(best: Option<Replica>, p: Replica) -> Option<Replica>
    ensures { least_id result ≡ lesser (least_id best) (replica_of p) }
{
    let Some(q) = best else {
        return Some(p);
    };
    if p < q {
        return Some(p);
    }
    best
}

// The least lacking id so far, with the element at a place.
fn least_with(
    t: &[u8],
    at: usize,
    keys: &[u32],
    row: &[u64],
    best: Option<Replica>,
) -> Option<Replica>
    requires { at + 12 ≤ length t.now }
    ensures { least_id result ≡ least_with
        (level_of keys.now row.now)
        (id_from t.now)
        (least_id best)
        (element_at t.now at) }
{
    let n = leaves::first::<4>(&t[at..at + 4]) as u32;
    let key = ReplicaKey(n);
    let tick = leaves::first::<8>(&t[at + 4..at + 4 + 8]);
    if tick <= level(keys, row, key) {
        return best;
    }
    let place = layout::IDS_PLACE + 16 * (n as usize);
    let high = codec::read::<8>(t, place);
    let low = codec::read::<8>(t, place + 8);
    lesser(best, Replica { high, low })
}

// Is no element of the vector at a place above the row. This is what a walk spends its time on; the least id is looked for
// only where one is.
fn none_above(t: &[u8], vector: usize, keys: &[u32], row: &[u64]) -> bool
    ensures { result ≡ true → least_of
        (level_of keys.now row.now)
        (id_from t.now)
        none
        (elements_here t.now vector) ≡ none }
{
    let n = lookup::elements_at(t, vector);
    for i in 0..n {
        let at = vector + 8 + 12 * i;
        let k = leaves::first::<4>(&t[at..at + 4]) as u32;
        if level(keys, row, ReplicaKey(k)) < leaves::first::<8>(&t[at + 4..at + 4 + 8]) {
            return false;
        }
    }
    true
}

// The least id of an element of the vector at a place with a tick above the row's.
fn least_lacking(t: &[u8], vector: usize, keys: &[u32], row: &[u64]) -> Option<Replica>
    ensures { least_id result ≡ least_of
        (level_of keys.now row.now)
        (id_from t.now)
        none
        (elements_here t.now vector) }
{
    if none_above(t, vector, keys, row) {
        return None;
    }
    let mut best = None;
    let n = lookup::elements_at(t, vector);
    for i in 0..n {
        best = least_with(t, vector + 8 + 12 * i, keys, row, best);
    }
    best
}

// ---- the first lacking place

// Is there room for the replicas, and are all ids and ranges there.
pub fn laid_out(s: &[u8], v: View) -> bool
    ensures { result ≡ laid_out s.now v.r v.start }
{
    if layout::LARGEST_REPLICAS < v.r {
        return false;
    }
    if s.len() < layout::IDS_PLACE + 16 * (v.r as usize) {
        return false;
    }
    let c = v.start;
    if s.len() < c.next {
        return false;
    }
    28 * (c.left as usize) <= s.len() - c.next
}

// The first place of a span where the knowledge of s knows less than that of t, with a key among those of s for each of t,
// and a row that is clear. Item by item: at the first one, and at each bound of either up to the last.
fn walk(
    s: &[u8],
    v: View,
    t: &[u8],
    w: View,
    span: Span,
    keys: &[u32],
    row: &mut [u64],
) -> Option<Lack>
    requires { (v.start.next + 28 * v.start.left ≤ length s.now) × (w.start.next + 28 * w.start.left ≤ length t.now)
        × (Keyed s.now v.r t.now w.r keys.now) × (w.r ≡ length keys.now) × (Zeros row.old) × (v.r < length row.old) }
    ensures { lack_of result ≡ walk_from s.now v.r v.start t.now w.r w.start
        (item_of span.first) (item_of span.last) }
{
    let r = v.r;
    let m = w.r;
    let last = span.last;
    let mut i = span.first;
    let mut x = lookup::advance(s, r, v.start, i);
    let mut y = lookup::advance(t, m, w.start, i);
    write_row(s, x.vector, row);
    // a loop: the next item is read from the bytes
    loop {
        if let Some(replica) = least_lacking(t, y.vector, keys, row) {
            return Some(Lack { item: i, replica });
        }
        let n = nearer(bound_of(s, x, last), bound_of(t, y, last))?;
        let before = x.vector;
        x = lookup::advance(s, r, x, n);
        y = lookup::advance(t, m, y, n);
        refill(s, before, x.vector, row);
        i = n;
    }
}

// The same, with scratch for the keys and the row.
fn search(s: &[u8], v: View, t: &[u8], w: View, span: Span) -> Option<Lack>
    requires { (LaidOut s.now v.r v.start) × (LaidOut t.now w.r w.start) }
    ensures { lack_of result ≡ walk_from s.now v.r v.start t.now w.r w.start
        (item_of span.first) (item_of span.last) }
{
    let mut keys = [0u32; CELLS];
    let mut row = [0u64; CELLS];
    let m = w.r;
    keys_of(s, v.r, t, m, &mut keys);
    walk(s, v, t, w, span, &keys[..m as usize], &mut row)
}

// The first place of a span where the knowledge of s knows less than the other, both opened before; none where ids or ranges
// are not all there.
pub fn lacking(s: &[u8], v: View, other: &[u8], w: View, span: Span) -> Option<Lack>
    ensures { lack_of result ≡ lacking_by s.now v.r v.start other.now w.r w.start
        (item_of span.first) (item_of span.last) }
{
    if laid_out(s, v) && laid_out(other, w) {
        return search(s, v, other, w, span);
    }
    None
}
