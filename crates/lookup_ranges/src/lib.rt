// Range by range through the bytes of a knowledge: its largest tick, that of one replica, whether a replica's tick is alike in all
// ranges, and whether nothing is known outside a span.
//
// Every public function is total and goes by places, for any bytes and cursor: for bytes that the check accepts, with the cursor
// before any range, the answers are the defined ones.
#![tactic(auto)]

ghost use Rattle.std.specs.Prelude.{◌≡◌, ◌+◌, ◌-◌, ◌*◌, ◌≤◌, length};
ghost use Rattle.codec.specs.Ids.{InWords, item_of, replica_of};
ghost use Rattle.ticks.specs.MethodRows.{top_tick};
ghost use Rattle.lookup.specs.Method.{elements_here};
ghost use Rattle.lookup_ranges.specs.Method.{past, top_of, top_key_of, alike_of, alike_in, end_before, lies_in, inside_of};

use codec::{Item, Replica, Span};
use layout::{ReplicaKey, VectorIndex};
use lookup::{Cursor, View};

// the lowest item id and the top one
const LOWEST: Item = Item {
    high: 0,
    middle: 0,
    low: 0,
};

const TOP: Item = Item {
    high: u64::MAX,
    middle: u64::MAX,
    low: u64::MAX,
};

// ---- from range to range

// The cursor past the next range, at that range's vector.
#[inline(always)]
fn past(s: &[u8], r: u32, c: Cursor) -> Cursor
    requires { (1 ≤ c.left) × (c.next + 28 * c.left ≤ length s.now) }
    ensures { result ≡ past s.now r c }
{
    let at = c.next + 24;
    let index = VectorIndex(leaves::first::<4>(&s[at..at + 4]) as u32);
    let vector = lookup::vector_place(s, r, c.index, c.vector, index);
    Cursor {
        left: c.left - 1,
        next: c.next + 28,
        index,
        vector,
    }
}

// ---- the largest tick

// The largest tick of the elements of the vector at a place, and of what was met before.
fn top_of(s: &[u8], vector: usize, before: u64) -> u64
    ensures { result ≡ top_tick before (elements_here s.now vector) }
{
    let n = lookup::elements_at(s, vector);
    let mut top = before;
    for i in 0..n {
        let at = vector + 8 + 12 * i + 4;
        top = codec::max(top, leaves::first::<8>(&s[at..at + 8]));
    }
    top
}

// The largest tick of the ranges of an opened knowledge.
#[tactic(auto, unfolding(crate::specs::Method::top_of))]
pub fn largest_from(s: &[u8], v: View) -> u64
    ensures { result ≡ top_of s.now v.r v.start }
{
    let mut c = v.start;
    if codec::beyond(s.len(), c.next, 28 * (c.left as usize)) {
        return 0;
    }
    let mut top: u64 = 0;
    for _ in 0..v.start.left {
        c = past(s, v.r, c);
        top = top_of(s, c.vector, top);
    }
    top
}

// The largest tick of a key in the ranges of an opened knowledge.
#[tactic(auto, unfolding(crate::specs::Method::top_key_of))]
pub fn top_key(s: &[u8], v: View, key: ReplicaKey) -> u64
    ensures { result ≡ top_key_of s.now v.r key v.start }
{
    let mut c = v.start;
    if codec::beyond(s.len(), c.next, 28 * (c.left as usize)) {
        return 0;
    }
    let mut top: u64 = 0;
    for _ in 0..v.start.left {
        c = past(s, v.r, c);
        top = codec::max(top, lookup::tick_at(s, c.vector, key));
    }
    top
}

// ---- a tick alike in all ranges

// Is the tick of a key the given one in every range of an opened knowledge.
#[tactic(auto, unfolding(crate::specs::Method::alike_of))]
fn alike(s: &[u8], v: View, key: ReplicaKey, own: u64) -> bool
    ensures { result ≡ alike_of s.now v.r key own v.start }
{
    let mut c = v.start;
    if codec::beyond(s.len(), c.next, 28 * (c.left as usize)) {
        return true;
    }
    for _ in 0..v.start.left {
        c = past(s, v.r, c);
        if lookup::tick_at(s, c.vector, key) != own {
            return false;
        }
    }
    true
}

// Is the tick of a replica alike in all ranges of an opened knowledge.
pub fn own_alike(s: &[u8], v: View, p: Replica) -> bool
    ensures { result ≡ alike_in s.now v.r v.start (replica_of p) }
{
    let key = lookup::key_of(s, v.r, p);
    let first = lookup::advance(s, v.r, v.start, LOWEST);
    let own = lookup::tick_at(s, first.vector, key);
    alike(s, v, key, own)
}

// ---- inside a span

// The item before a bound; the bound 0 itself.
fn item_before(b: Item) -> Item
    requires { InWords b }
    ensures value { item_of result ≡ item_of b - 1 }
    ensures in_words { InWords result }
{
    if b.low != 0 {
        return Item {
            low: b.low - 1,
            ..b
        };
    }
    if b.middle != 0 {
        return Item {
            middle: b.middle - 1,
            low: u64::MAX,
            ..b
        };
    }
    if b.high != 0 {
        return Item {
            high: b.high - 1,
            ..TOP
        };
    }
    b
}

// The last item of a range, from the place and the number of the ranges after it.
fn last_item(s: &[u8], next: usize, left: u32) -> Item
    requires { next + 28 * left ≤ length s.now }
    ensures value { item_of result ≡ end_before s.now left next }
    ensures in_words { InWords result }
{
    if left == 0 {
        return TOP;
    }
    item_before(Item::from_bytes(&s[next..next + 24]))
}

// Is the range at a place, with `left` more after it, one of vector 0, or inside the span.
fn lies_in(s: &[u8], next: usize, left: u32, span: Span) -> bool
    requires { next + 28 + 28 * left ≤ length s.now }
    ensures { result ≡ lies_in s.now (item_of span.first) (item_of span.last) left next }
{
    let at = next + 24;
    if leaves::first::<4>(&s[at..at + 4]) == 0 {
        return true;
    }
    span.first <= Item::from_bytes(&s[next..next + 24])
        && last_item(s, next + 28, left) <= span.last
}

// Does every range of an opened knowledge, but for those of vector 0, lie inside the span from the first item to the last: its
// bound not below the first, its end not above the last. In normal form that is whether nothing is known outside.
#[tactic(auto, unfolding(crate::specs::Method::inside_of))]
pub fn inside(s: &[u8], v: View, span: Span) -> bool
    ensures { result ≡ inside_of s.now v.start (item_of span.first) (item_of span.last) }
{
    let c = v.start;
    if codec::beyond(s.len(), c.next, 28 * (c.left as usize)) {
        return true;
    }
    (0..c.left).all(|i| lies_in(s, c.next + 28 * (i as usize), c.left - 1 - i, span))
}
