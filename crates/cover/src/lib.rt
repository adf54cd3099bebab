// Whether one knowledge knows everything that another knows in a span, and the call cover.
//
// Every public function is total. The keys of two knowledges meet through their ids only. The elements of the second's vectors are
// compared in place with those of the first's; nothing is copied.
#![tactic(auto)]

ghost use Rattle.std.specs.Prelude.{◌≡◌, true, ◌+◌, ◌*◌, ◌^◌, ◌≤◌, ◌<◌, length};
ghost use Rattle.codec.specs.Ids.{item_of, replica_of};
ghost use Rattle.layout.specs.Knowledge.{Rules, basic};
ghost use Rattle.layout.specs.Permitted.{rules_within};
ghost use Rattle.ticks.specs.Cover.{cover_of};
ghost use Rattle.ticks.specs.Calls.{cover_answer};
ghost use Rattle.lookup.specs.Method.{elements_here, tick_of, There, Opens, Open};
ghost use Rattle.lacking.specs.Method.{Keyed, bound_of, LaidOut};
ghost use Rattle.cover.specs.Method.{level_in, none_above, turn_of, step_if, clear_from, covers_by};

use codec::{Item, Refusal, Span};
use layout::{Limits, ReplicaKey, VectorIndex};
use lookup::{Cursor, View};
use std::cmp::Ordering;

// scratch for the keys of the most replicas
const CELLS: usize = layout::LARGEST_REPLICAS as usize;

// ---- what lacks at an item

// The tick of a key in the vector at a place with n elements. The element at the key's index is looked at here, and others where it is
// another key's.
fn tick_in(s: &[u8], vector: usize, n: usize, key: ReplicaKey) -> u64
    requires { There s.now vector n }
    ensures { result ≡ tick_of s.now vector key }
{
    let guess = key.0 as usize;
    if n <= guess {
        return lookup::tick_at(&s[..], vector, key);
    }
    let at = vector + 8 + 12 * guess;
    if leaves::first::<4>(&s[at..at + 4]) == u64::from(key.0) {
        return leaves::first::<8>(&s[at + 4..at + 4 + 8]);
    }
    lookup::tick_at(&s[..], vector, key)
}

// The tick of the first knowledge, in the vector at a place with n elements, for a key of the second.
fn level(keys: &[u32], s: &[u8], vector: usize, n: usize, key: ReplicaKey) -> u64
    requires { There s.now vector n }
    ensures { result ≡ level_in keys.now s.now vector key.0 }
{
    let Some(other) = keys.get(key.0 as usize) else {
        return 0;
    };
    tick_in(s, vector, n, ReplicaKey(*other))
}

// Is no element of t's vector at the place y above what the vector of s at the place x has for its replica. lacking's
// function of this name has the same loop over levels from a row: kept apart, since that one promises by the least id of an element
// above, and this one by whether there is one.
fn none_above(t: &[u8], y: usize, keys: &[u32], s: &[u8], x: usize) -> bool
    ensures { result ≡ none_above (level_in keys.now s.now x) (elements_here t.now y) }
{
    let n = lookup::elements_at(t, y);
    if n == 0 {
        return true;
    }
    let m = lookup::elements_at(s, x);
    for i in 0..n {
        let at = y + 8 + 12 * i;
        let k = leaves::first::<4>(&t[at..at + 4]) as u32;
        if level(keys, s, x, m, ReplicaKey(k)) < leaves::first::<8>(&t[at + 4..at + 4 + 8]) {
            return false;
        }
    }
    true
}

// ---- the next stop

// Whose bound is the next stop: less for the first's, greater for the second's, equal for that of both; none up to the last item.
fn turn(s: &[u8], x: Cursor, t: &[u8], y: Cursor, last: Item) -> Option<Ordering>
    requires { (x.next + 28 * x.left ≤ length s.now) × (y.next + 28 * y.left ≤ length t.now) }
    ensures { result ≡ turn_of (bound_of s.now x (item_of last)) (bound_of t.now y (item_of last)) }
{
    match (lacking::bound_of(s, x, last), lacking::bound_of(t, y, last)) {
        (Some(a), Some(b)) => Some(a.cmp(&b)),
        (Some(_), None) => Some(Ordering::Less),
        (None, Some(_)) => Some(Ordering::Greater),
        (None, None) => None,
    }
}

// Past the next range.
fn step(s: &[u8], r: u32, c: Cursor) -> Cursor
    requires { (c.next + 28 * c.left ≤ length s.now) × (0 < c.left) }
    ensures { result ≡ step_if s.now r true c }
{
    let next = c.next;
    let n = leaves::first::<4>(&s[next + 24..next + 24 + 4]) as u32;
    let index = VectorIndex(n);
    let vector = lookup::vector_place(&s[..], r, c.index, c.vector, index);
    Cursor {
        left: c.left - 1,
        next: next + 28,
        index,
        vector,
    }
}

// ---- whether there is a lacking place

// Item by item: at the first one, and at each bound of either up to the last, with a key among those of s for each of t.
fn walk(s: &[u8], v: View, t: &[u8], w: View, span: Span, keys: &[u32]) -> bool
    requires { (v.start.next + 28 * v.start.left ≤ length s.now) × (w.start.next + 28 * w.start.left ≤ length t.now)
        × (Keyed s.now v.r t.now w.r keys.now) × (w.r ≡ length keys.now) }
    ensures { result ≡ clear_from s.now v.r v.start t.now w.r w.start
        (item_of span.first) (item_of span.last) }
{
    let r = v.r;
    let m = w.r;
    let last = span.last;
    let mut x = lookup::advance(s, r, v.start, span.first);
    let mut y = lookup::advance(t, m, w.start, span.first);
    // a loop: the next item is read from the bytes
    loop {
        if !none_above(t, y.vector, keys, s, x.vector) {
            return false;
        }
        let Some(o) = turn(s, x, t, y, last) else {
            return true;
        };
        if o.is_le() {
            x = step(s, r, x);
        }
        if o.is_ge() {
            y = step(t, m, y);
        }
    }
}

// The same, with scratch for the keys.
fn search(s: &[u8], v: View, t: &[u8], w: View, span: Span) -> bool
    requires { (LaidOut s.now v.r v.start) × (LaidOut t.now w.r w.start) }
    ensures { result ≡ clear_from s.now v.r v.start t.now w.r w.start
        (item_of span.first) (item_of span.last) }
{
    let mut keys = [0u32; CELLS];
    let m = w.r;
    lacking::keys_of(s, v.r, t, m, &mut keys);
    walk(s, v, t, w, span, &keys[..m as usize])
}

// Does the knowledge of s know everything in a span that the other knows, both opened before; yes where ids or ranges are not all there.
pub fn covers(s: &[u8], v: View, other: &[u8], w: View, span: Span) -> bool
    ensures { result ≡ covers_by s.now v.r v.start other.now w.r w.start
        (item_of span.first) (item_of span.last) }
{
    if lacking::laid_out(s, v) && lacking::laid_out(other, w) {
        return search(s, v, other, w, span);
    }
    true
}

// ---- cover

// Cover of two accepted knowledges, by whichever rules accept both.
fn cover_in(
    s: &[u8],
    v: View,
    t: &[u8],
    w: View,
    first: &[u8],
    last: &[u8],
) -> Result<bool, Refusal>
    requires { (Open s.now v.r v.start) × (Open t.now w.r w.start) }
    ensures { (R : Rules) → Opens R s.now v.r v.start → Opens R t.now w.r w.start
        → cover_of result ≡ cover_answer R s.now t.now first.now last.now }
{
    if lookup::wrong_span(first, last) {
        return Err(Refusal::WrongIds);
    }
    let span = Span {
        first: Item::from_bytes(first),
        last: Item::from_bytes(last),
    };
    Ok(covers(s, v, t, w, span))
}

// Cover with limits of the caller's.
fn cover_within(
    knowledge: &[u8],
    other: &[u8],
    first: &[u8],
    last: &[u8],
    limits: Limits,
) -> Result<bool, Refusal>
    ensures { cover_of result ≡ cover_answer (rules_within limits.replicas limits.ranges)
        knowledge.now other.now first.now last.now }
{
    let v = lookup::open_within(knowledge, limits)?;
    let w = lookup::open_within(other, limits)?;
    cover_in(knowledge, v, other, w, first, last)
}

// Does the first knowledge know at least as much as the second from the first id to the last.
pub fn cover(knowledge: &[u8], other: &[u8], first: &[u8], last: &[u8]) -> Result<bool, Refusal>
    ensures { cover_of result ≡ cover_answer basic knowledge.now other.now first.now last.now }
{
    cover_within(knowledge, other, first, last, layout::LIMITS)
}
