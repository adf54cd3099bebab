// Which of two knowledges is ahead, over all ids, and for each that lacks something the first place where it does.
//
// The public function is total.
#![tactic(auto)]

ghost use Rattle.std.specs.Prelude.{◌≡◌, true, ℕ, ◌+◌, ◌*◌, ◌^◌, ◌≤◌, ◌<◌, length};
ghost use Rattle.codec.specs.MethodWritten.{Wrote};
ghost use Rattle.codec.specs.Reply.{answer, after};
ghost use Rattle.codec.specs.Answer.{answer_of};
ghost use Rattle.layout.specs.Knowledge.{Rules, basic};
ghost use Rattle.layout.specs.Decode.{ids_at, decode};
ghost use Rattle.layout.specs.MethodPlaces.{ids_place};
ghost use Rattle.layout.specs.Permitted.{rules_within};
ghost use Rattle.ticks.specs.Meaning.{highest};
ghost use Rattle.ticks.specs.Operations.{lacking};
ghost use Rattle.ticks.specs.Compare.{order_of, put_lack, compare_reply, order_value};
ghost use Rattle.lookup.specs.Method.{elements_here, Opens, Open};
ghost use Rattle.lacking.specs.Method.{lack_of};
ghost use Rattle.compare.specs.Method.{Reached, GoesOn, size_of, Compared};

use codec::{Item, Refusal, Replica, Span};
use lacking::Lack;
use layout::Limits;
use lookup::{Cursor, View};

// the lowest item id and the highest
const FIRST: Item = Item {
    high: 0,
    middle: 0,
    low: 0,
};

const LAST: Item = Item {
    high: u64::MAX,
    middle: u64::MAX,
    low: u64::MAX,
};

// the length of what is written for a side that lacks something
const LACK: usize = 56;

// How two cursors go on that stand at one item. Own variants: there are three ways, and an `Option` in an `Option` would not name them.
#[derive(Clone, Copy)]
enum Next {
    // no bound is left to either, and the vectors are the same
    Done,
    // a bound or the vectors differ
    Unlike,
    // the vectors are the same, and this is the next bound of both
    At(Item),
}

// ---- how far both are alike

// Are the r replica ids of two knowledges the same, in the same order.
fn same_ids(s: &[u8], t: &[u8], r: u32) -> bool
    requires { (27 + 16 * r ≤ length s.now) × (27 + 16 * r ≤ length t.now) }
    ensures { result ≡ true → ids_at s.now r ids_place ≡ ids_at t.now r ids_place }
{
    for i in 0..r as usize {
        let at = layout::IDS_PLACE + 16 * i;
        if Replica::from_bytes(&s[at..at + 16]) != Replica::from_bytes(&t[at..at + 16]) {
            return false;
        }
    }
    true
}

// Are the elements of two vectors the same, in the same order.
fn same_vector(s: &[u8], a: usize, t: &[u8], b: usize) -> bool
    ensures { result ≡ true → elements_here s.now a ≡ elements_here t.now b }
{
    let n = lookup::elements_at(s, a);
    if lookup::elements_at(t, b) != n {
        return false;
    }
    for i in 0..n {
        let x = a + 8 + 12 * i;
        let y = b + 8 + 12 * i;
        if leaves::first::<8>(&s[x + 4..x + 4 + 8]) != leaves::first::<8>(&t[y + 4..y + 4 + 8]) {
            return false;
        }
        if leaves::first::<4>(&s[x..x + 4]) != leaves::first::<4>(&t[y..y + 4]) {
            return false;
        }
    }
    true
}

// How two cursors go on from an item: where the vectors there are the same and so is the next bound, to that bound.
fn next_alike(s: &[u8], x: Cursor, t: &[u8], y: Cursor) -> Next
    requires { (x.next + 28 * x.left ≤ length s.now) × (y.next + 28 * y.left ≤ length t.now) }
    ensures { GoesOn s.now x t.now y result }
{
    if !same_vector(s, x.vector, t, y.vector) {
        return Next::Unlike;
    }
    match (x.left, y.left) {
        (0, 0) => Next::Done,
        (0, _) | (_, 0) => Next::Unlike,
        _ => {
            let bound = Item::from_bytes(&s[x.next..x.next + 24]);
            if bound != Item::from_bytes(&t[y.next..y.next + 24]) {
                return Next::Unlike;
            }
            Next::At(bound)
        }
    }
}

// How far two knowledges with the same ids are alike, from bound to bound as long as these and the vectors are the same: the item below
// which nothing lacks, either way, or none where nothing lacks at all.
fn alike_from(s: &[u8], v: View, t: &[u8], w: View) -> Option<Item>
    requires { (Open s.now v.r v.start) × (Open t.now w.r w.start) × ((decode s.now).replicas ≡ (decode t.now).replicas) }
    ensures { (Reached (decode s.now) (decode t.now) result)
        × (Reached (decode t.now) (decode s.now) result) }
{
    let r = v.r;
    let m = w.r;
    let mut i = FIRST;
    let mut x = lookup::advance(s, r, v.start, i);
    let mut y = lookup::advance(t, m, w.start, i);
    // a loop: the next item is read from the bytes
    loop {
        match next_alike(s, x, t, y) {
            Next::Done => return None,
            Next::Unlike => return Some(i),
            Next::At(n) => {
                x = lookup::advance(s, r, x, n);
                y = lookup::advance(t, m, y, n);
                i = n;
            }
        }
    }
}

// How far two knowledges are alike. Equal knowledges in normal form have the same bytes, and this finds it without a row of ticks; where
// the ids differ it does not look.
fn alike_below(s: &[u8], v: View, t: &[u8], w: View) -> Option<Item>
    requires { (Open s.now v.r v.start) × (Open t.now w.r w.start) }
    ensures { (Reached (decode s.now) (decode t.now) result)
        × (Reached (decode t.now) (decode s.now) result) }
{
    if v.r == w.r && same_ids(s, t, v.r) {
        return alike_from(s, v, t, w);
    }
    Some(FIRST)
}

// ---- the places

// The first place of all where the knowledge of s knows less than that of t, from how far both are alike.
fn lacking_place(s: &[u8], v: View, t: &[u8], w: View, e: Option<Item>) -> Option<Lack>
    requires { (Open s.now v.r v.start) × (Open t.now w.r w.start) × (Reached (decode s.now) (decode t.now) e) }
    ensures { lack_of result ≡ lacking (decode s.now) (decode t.now) 0 highest }
{
    let first = e?;
    lacking::lacking(s, v, t, w, Span { first, last: LAST })
}

fn order_of(x: Option<Lack>, y: Option<Lack>) -> u32
    ensures { result ≡ order_of (lack_of x) (lack_of y) }
{
    match (x, y) {
        (None, None) => 0,
        (Some(_), None) => 1,
        (None, Some(_)) => 2,
        (Some(_), Some(_)) => 3,
    }
}

fn size_of(x: Option<Lack>) -> usize
    ensures { result ≡ size_of (lack_of x) }
{
    match x {
        Some(_) => LACK,
        None => 0,
    }
}

// ---- what is written

// The place with both ticks there, from a place of the buffer on; nothing for a side that lacks nothing.
fn put_lack(s: &[u8], v: View, t: &[u8], w: View, x: Option<Lack>, out: &mut [u8], at: usize)
    requires { (Open s.now v.r v.start) × (Open t.now w.r w.start) × (at ≤ 56) }
    ensures { Wrote out.old at (put_lack (decode s.now) (decode t.now) (lack_of x))
        out.new (at + size_of (lack_of x)) }
{
    let Some(l) = x else {
        return;
    };
    let a = lookup::known_tick(s, v, l.item, l.replica);
    let b = lookup::known_tick(t, w, l.item, l.replica);
    leaves::write_item(out, at, l.item);
    leaves::write_replica(out, at + 24, l.replica);
    codec::write::<8>(out, at + 40, a);
    codec::write::<8>(out, at + 48, b);
}

// ---- the call

// Compare of two accepted knowledges, by whichever rules accept both: the places, and with them the length, before anything is written.
fn compare_in(
    s: &[u8],
    v: View,
    t: &[u8],
    w: View,
    order: &mut u32,
    out: &mut [u8],
) -> Result<usize, Refusal>
    requires { (Open s.now v.r v.start) × (Open t.now w.r w.start) }
    ensures { (R : Rules) → Opens R s.now v.r v.start → Opens R t.now w.r w.start
        → Compared R s.now t.now out.old out.new order.old order.new (answer_of result) }
{
    let e = alike_below(s, v, t, w);
    let x = lacking_place(s, v, t, w, e);
    let y = lacking_place(t, w, s, v, e);
    let second = size_of(x);
    let length = second + size_of(y);
    if out.len() < length {
        return Err(Refusal::BufferTooShort);
    }
    put_lack(s, v, t, w, x, out, 0);
    put_lack(s, v, t, w, y, out, second);
    *order = order_of(x, y);
    Ok(length)
}

// Compare with limits of the caller's.
fn compare_within(
    first: &[u8],
    second: &[u8],
    order: &mut u32,
    out: &mut [u8],
    limits: Limits,
) -> Result<usize, Refusal>
    ensures { Compared (rules_within limits.replicas limits.ranges) first.now second.now
        out.old out.new order.old order.new (answer_of result) }
{
    let v = lookup::open_within(first, limits)?;
    let w = lookup::open_within(second, limits)?;
    compare_in(first, v, second, w, order, out)
}

// Which of two knowledges is ahead: the order, and for each that lacks something the first place where it does, with both ticks. All of
// the first is checked before any of the second.
pub fn compare(
    first: &[u8],
    second: &[u8],
    order: &mut u32,
    out: &mut [u8],
) -> Result<usize, Refusal>
    ensures value { answer_of result ≡ answer (compare_reply basic first.now second.now) (length out.old) }
    ensures out_after { out.new ≡ after (compare_reply basic first.now second.now) out.old }
    ensures order_after { order.new ≡ order_value basic first.now second.now
        (answer (compare_reply basic first.now second.now) (length out.old)) order.old }
{
    compare_within(first, second, order, out, layout::LIMITS)
}
