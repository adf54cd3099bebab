// The known tick in the bytes of a knowledge, and the calls that look for it: contain and lead.
//
// Every public function is total. The leaves go by places and take any bytes, any sizes and any cursor; for bytes that the check
// accepts, with the sizes that it answers, they give the known tick.
#![tactic(auto)]

ghost use Rattle.std.specs.Prelude.{ℕ, ◌≡◌, ◌+◌, ◌*◌, ◌^◌, ◌≤◌, ◌<◌, pos, ◌-ℤ◌, length};
ghost use Rattle.codec.specs.Ids.{item_of, replica_of};
ghost use Rattle.layout.specs.Knowledge.{basic};
ghost use Rattle.layout.specs.Permitted.{rules_within};
ghost use Rattle.layout.specs.Parse.{checked_by};
ghost use Rattle.ticks.specs.Contain.{contain_of};
ghost use Rattle.ticks.specs.Lead.{lead_given};
ghost use Rattle.ticks.specs.Calls.{contain_answer, lead_answer, wrong_span};
ghost use Rattle.lookup.specs.Method.{key_at, stepped, vector_from, passed, advanced, There, tick_here, tick_of, tick_from};
ghost use Rattle.lookup.specs.Opened.{opened_of};
ghost use Rattle.lookup.specs.Method.{start_at, open_of, checked_under, opened_under, Open, Ticked};

use codec::{Item, Refusal, Replica};
use layout::{Counts, Limits, ReplicaKey, VectorIndex};

// A place among the ranges of a knowledge, for items in rising order: it only moves forward.
#[derive(Clone, Copy)]
pub struct Cursor {
    // how many ranges are not passed, and the place of the next one
    pub left: u32,
    pub next: usize,
    // the clock vector of the range that was passed last, vector 0 where none was, and the place of that vector
    pub index: VectorIndex,
    pub vector: usize,
}

// A knowledge that was opened: how many replicas it has, and the cursor before any of its ranges.
#[derive(Clone, Copy)]
pub struct View {
    pub r: u32,
    pub start: Cursor,
}

// ---- the key of an id

// The key of a replica id among the r ids of the map, in whatever order they stand; r where it is not among them, or where they
// are not all there: no vector has an element of the key r, so that its tick is 0 without a test.
pub fn key_of(s: &[u8], r: u32, p: Replica) -> ReplicaKey
    ensures { result ≡ key_at s.now r (replica_of p) }
{
    if s.len() < layout::IDS_PLACE + 16 * (r as usize) {
        return ReplicaKey(r);
    }
    for k in 0..r {
        let at = layout::IDS_PLACE + 16 * (k as usize);
        if leaves::is_replica(&s[at..at + 16], p) {
            return ReplicaKey(k);
        }
    }
    ReplicaKey(r)
}

// ---- the vector of an index

// The place after n vectors from a place on; where a vector's count is not there, no further.
fn step_over(s: &[u8], n: u32, start: usize) -> usize
    ensures { result ≡ stepped s.now n start }
{
    if s.len() < 8 {
        return start;
    }
    let end = s.len() - 8;
    let mut at = start;
    for _ in 0..n {
        if end < at {
            return at;
        }
        at = at + 8 + 12 * (leaves::first::<4>(&s[at + 4..at + 4 + 4]) as usize);
    }
    at
}

// The place of a vector, from another one whose place is known: onwards from there, or else from the first vector on.
pub fn vector_place(s: &[u8], r: u32, from: VectorIndex, at: usize, to: VectorIndex) -> usize
    ensures { result ≡ vector_from s.now r from at to }
{
    if from.0 <= to.0 {
        return step_over(s, to.0 - from.0, at);
    }
    step_over(s, to.0, layout::VECTORS_PLACE + 16 * (r as usize))
}

// ---- the range of an item

// Passes the ranges whose bounds are at or below the item. The place of the vector stays what it was.
fn pass(s: &[u8], c: Cursor, i: Item) -> Cursor
    requires { c.next + 28 * c.left ≤ length s.now }
    ensures { result ≡ passed s.now (item_of i) c.left c }
{
    let mut d = c;
    // a while: it ends at the first bound that is above the item
    while 0 < d.left && !leaves::below(&s[d.next..d.next + 24], i) {
        d.index = VectorIndex(leaves::first::<4>(&s[d.next + 24..d.next + 24 + 4]) as u32);
        d.next += 28;
        d.left -= 1;
    }
    d
}

// Moves a cursor on to an item. With r replicas, the first vector stands after their ids. Where the ranges are not all there, the
// cursor stays.
pub fn advance(s: &[u8], r: u32, c: Cursor, i: Item) -> Cursor
    ensures { result ≡ advanced s.now r c (item_of i) }
{
    if codec::beyond(s.len(), c.next, 28 * (c.left as usize)) {
        return c;
    }
    let d = pass(s, c, i);
    Cursor {
        vector: vector_place(s, r, c.index, c.vector, d.index),
        ..d
    }
}

// ---- the tick of a key

// How many elements the vector at a place has; 0 where they are not all there.
pub fn elements_at(s: &[u8], at: usize) -> usize
    ensures { There s.now at result }
{
    if codec::beyond(s.len(), at, 8) {
        return 0;
    }
    let n = leaves::first::<4>(&s[at + 4..at + 4 + 4]) as usize;
    if s.len() - 8 - at < 12 * n {
        return 0;
    }
    n
}

// The tick of a key in the vector at a place with n elements, the first one that has the key; 0 where none has.
fn tick_scan(s: &[u8], vector: usize, n: usize, key: ReplicaKey) -> u64
    requires { There s.now vector n }
    ensures { result ≡ tick_here s.now vector key }
{
    for k in 0..n {
        let at = vector + 8 + 12 * k;
        if leaves::first::<4>(&s[at..at + 4]) == u64::from(key.0) {
            return leaves::first::<8>(&s[at + 4..at + 4 + 8]);
        }
    }
    0
}

// The tick of a key in the vector at a place, 0 where it has no such element. A vector that has every replica by rising key has the
// element of a key at the key's index: that one is looked at first. The search takes the slice anew, so that the caller's own need not
// lie in memory.
pub fn tick_at(s: &[u8], vector: usize, key: ReplicaKey) -> u64
    ensures { result ≡ tick_of s.now vector key }
{
    let n = elements_at(s, vector);
    let guess = key.0 as usize;
    if n <= guess {
        return tick_scan(&s[..], vector, n, key);
    }
    let at = vector + 8 + 12 * guess;
    if leaves::first::<4>(&s[at..at + 4]) == u64::from(key.0) {
        return leaves::first::<8>(&s[at + 4..at + 4 + 8]);
    }
    tick_scan(&s[..], vector, n, key)
}

// The tick that an opened knowledge knows of an item and a replica.
#[inline(always)]
pub fn known_tick(s: &[u8], v: View, i: Item, p: Replica) -> u64
    ensures { result ≡ tick_from s.now v.r v.start (item_of i) (replica_of p) }
{
    let d = advance(s, v.r, v.start, i);
    let key = key_of(s, v.r, p);
    tick_at(s, d.vector, key)
}

// ---- from the check

// The cursor before any range, from the sizes of a knowledge.
pub fn start(r: u32, v: u32, e: u32, g: u32) -> Cursor
    ensures { result ≡ start_at r v e g }
{
    Cursor {
        left: g,
        next: layout::RANGES_PLACE + 16 * (r as usize) + 8 * (v as usize) + 12 * (e as usize),
        index: VectorIndex(0),
        vector: layout::VECTORS_PLACE + 16 * (r as usize),
    }
}

// What the check answered, for lookup; an error is handed on, of whatever type it is and whichever number it has. Counts are numbers of
// four bytes, and those of an accepted knowledge always fit.
#[inline(always)]
pub fn from_check<E>(c: Result<Counts, E>) -> Result<View, E>
    ensures { (number_of : E → ℕ) → opened_under number_of result ≡ open_of (checked_under number_of c) }
{
    let n = c?;
    let r = (n.r % 4294967296) as u32;
    let v = (n.v % 4294967296) as u32;
    let e = (n.e % 4294967296) as u32;
    let g = (n.g % 4294967296) as u32;
    let start = start(r, v, e, g);
    Ok(View { r, start })
}

// Checks the bytes of a knowledge with limits of the caller's, the most replicas and the most ranges, each clamped to 1 to its
// largest: what lookup goes on from. The check takes the slice anew, so that the caller's own need not lie in memory.
pub fn open_within(s: &[u8], limits: Limits) -> Result<View, Refusal>
    ensures { opened_of result ≡ open_of (checked_by (rules_within limits.replicas limits.ranges) s.now) }
{
    from_check(check_knowledge::check_within(&s[..], limits.replicas, limits.ranges))
}

// ---- a span

// Whether two ids are no span: one is not 24 bytes long, or the first is above the last.
#[inline(always)]
pub fn wrong_span(first: &[u8], last: &[u8]) -> bool
    ensures { result ≡ wrong_span first.now last.now }
{
    if first.len() != 24 || last.len() != 24 {
        return true;
    }
    Item::from_bytes(last) < Item::from_bytes(first)
}

// ---- the calls

// The tick that an accepted knowledge knows of an item and a replica, each given as bytes.
#[inline(always)]
fn tick_of(s: &[u8], v: View, item: &[u8], replica: &[u8]) -> Result<u64, Refusal>
    requires { Open s.now v.r v.start }
    ensures { Ticked s.now item.now replica.now result }
{
    if item.len() != 24 || replica.len() != 16 {
        return Err(Refusal::WrongIds);
    }
    Ok(known_tick(s, v, Item::from_bytes(item), Replica::from_bytes(replica)))
}

// Contain with limits of the caller's.
fn contain_within(
    knowledge: &[u8],
    item: &[u8],
    replica: &[u8],
    tick: u64,
    limits: Limits,
) -> Result<bool, Refusal>
    ensures { contain_of result ≡ contain_answer (rules_within limits.replicas limits.ranges)
        knowledge.now item.now replica.now tick }
{
    let v = open_within(knowledge, limits)?;
    let known = tick_of(knowledge, v, item, replica)?;
    Ok(0 < tick && tick <= known)
}

// Does a knowledge contain the version of an item, a replica and a tick. Any tick may be given.
pub fn contain(knowledge: &[u8], item: &[u8], replica: &[u8], tick: u64) -> Result<bool, Refusal>
    ensures { contain_of result ≡ contain_answer basic knowledge.now item.now replica.now tick }
{
    contain_within(knowledge, item, replica, tick, layout::LIMITS)
}

// The first tick minus the second. Both are at most 2^63 - 1, so it fits at both ends.
fn ahead(a: u64, b: u64) -> i64
    requires { (a < 2 ^ 63) × (b < 2 ^ 63) }
    ensures { result ≡ pos a -ℤ pos b }
{
    (a as i64) - (b as i64)
}

// Lead with limits of the caller's.
fn lead_within(
    first: &[u8],
    second: &[u8],
    item: &[u8],
    replica: &[u8],
    limits: Limits,
) -> Result<i64, Refusal>
    ensures { lead_given result ≡ lead_answer (rules_within limits.replicas limits.ranges)
        first.now second.now item.now replica.now }
{
    let v = open_within(first, limits)?;
    let w = open_within(second, limits)?;
    let a = tick_of(first, v, item, replica)?;
    let b = tick_of(second, w, item, replica)?;
    Ok(ahead(a, b))
}

// The tick that the first knowledge knows of an item and a replica minus the one that the second knows.
pub fn lead(first: &[u8], second: &[u8], item: &[u8], replica: &[u8]) -> Result<i64, Refusal>
    ensures { lead_given result ≡ lead_answer basic first.now second.now item.now replica.now }
{
    lead_within(first, second, item, replica, layout::LIMITS)
}
