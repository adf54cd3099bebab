// Records in the bytes of a store or batch: their lengths and fields, which of two records wins, the search for an item's record,
// and the check of a table.
//
// Every public function is total and takes the whole bytes and a place in them.
#![tactic(auto)]

ghost use Rattle.std.specs.Prelude.{◌≡◌, ◌+◌, ◌*◌, ◌^◌, ◌≤◌, ◌<◌, eqb, leb, length};
ghost use Rattle.codec.specs.Total.{read_at};
ghost use Rattle.codec.specs.Ids.{InWords, item_of, replica_of};
ghost use Rattle.replication.specs.Reading.{rec_length, behind, rec_at, tag_kept, valid_rec};
ghost use Rattle.replication.specs.Reading.{item_place, change_replica_place, change_tick_place, create_replica_place, create_tick_place, tag_place};
ghost use Rattle.replication.specs.Queries.{places, place_of, length_at};
ghost use Rattle.replication.specs.Operate.{wins};
ghost use Rattle.replication.specs.MethodRecords.{WholeAt, shaped_at};
ghost use Rattle.records.specs.Method.{common_length, read_rec, found_place, least};

use codec::{Item, Replica};

// the places of a record's fields, counted from its own
pub const ITEM_PLACE: usize = 1;

pub const CHANGE_REPLICA_PLACE: usize = 25;

pub const CHANGE_TICK_PLACE: usize = 41;

pub const CREATE_REPLICA_PLACE: usize = 49;

pub const CREATE_TICK_PLACE: usize = 65;

const TAG: usize = 73;

// the place behind it, counted so too: the length of a record of either kind
const END: usize = 89;

// the kinds of records, as their first byte has them
pub const LIVE: u64 = 1;

pub const TOMBSTONE: u64 = 2;

const LARGEST_TICK: u64 = 9223372036854775807;

// ---- one record

// The length of a record of a kind, 0 for a number that is no record's kind: the one place where the length comes from.
pub fn record_length(kind: u64) -> usize
    ensures { result ≡ rec_length kind }
{
    match kind {
        LIVE => END,
        TOMBSTONE => END,
        _ => 0,
    }
}

// The length of the whole record of a known kind at a place, 0 where none stands there.
pub fn length_at(s: &[u8], at: usize) -> usize
    ensures { result ≡ length_at s.now at }
{
    let Some(kind) = s.get(at) else {
        return 0;
    };
    let n = record_length(u64::from(*kind));
    if s.len() - at < n {
        return 0;
    }
    n
}

// The place behind the record at a place; the place itself where no record of a known kind begins.
pub fn behind(s: &[u8], at: usize) -> usize
    ensures { result ≡ behind s.now at }
{
    if s.len() <= at {
        return at;
    }
    at + record_length(u64::from(s[at]))
}

// ---- the fields of the record at a place; a field of which a byte is missing is 0

// The replica id that begins so many bytes behind a place.
fn replica_at(s: &[u8], at: usize, from: usize) -> Replica
    requires { from ≤ tag_place }
    ensures value { replica_of result ≡ read_at s.now 16 (at + from) }
    ensures low_bound { result.low < 2 ^ 64 }
{
    if codec::beyond(s.len(), at, from + 16) {
        return Replica { high: 0, low: 0 };
    }
    Replica::from_bytes(&s[at + from..at + from + 16])
}

// The tick that begins so many bytes behind a place.
fn tick_at(s: &[u8], at: usize, from: usize) -> u64
    requires { from ≤ tag_place }
    ensures { result ≡ read_at s.now 8 (at + from) }
{
    if codec::beyond(s.len(), at, from + 8) {
        return 0;
    }
    leaves::first::<8>(&s[at + from..at + from + 8])
}

// The item.
pub fn item_of(s: &[u8], at: usize) -> Item
    ensures value { item_of result ≡ read_at s.now 24 (at + item_place) }
    ensures in_words { InWords result }
{
    if codec::beyond(s.len(), at, ITEM_PLACE + 24) {
        return Item {
            high: 0,
            middle: 0,
            low: 0,
        };
    }
    Item::from_bytes(&s[at + ITEM_PLACE..at + ITEM_PLACE + 24])
}

// The replica and the tick of the change version.
pub fn change_replica(s: &[u8], at: usize) -> Replica
    ensures value { replica_of result ≡ read_at s.now 16 (at + change_replica_place) }
    ensures low_bound { result.low < 2 ^ 64 }
{
    replica_at(s, at, CHANGE_REPLICA_PLACE)
}

pub fn change_tick(s: &[u8], at: usize) -> u64
    ensures { result ≡ read_at s.now 8 (at + change_tick_place) }
{
    tick_at(s, at, CHANGE_TICK_PLACE)
}

// The replica and the tick of the create version.
pub fn create_replica(s: &[u8], at: usize) -> Replica
    ensures { replica_of result ≡ read_at s.now 16 (at + create_replica_place) }
{
    replica_at(s, at, CREATE_REPLICA_PLACE)
}

pub fn create_tick(s: &[u8], at: usize) -> u64
    ensures { result ≡ read_at s.now 8 (at + create_tick_place) }
{
    tick_at(s, at, CREATE_TICK_PLACE)
}

// Does a tombstone begin at a place.
pub fn tombstone(s: &[u8], at: usize) -> bool
    ensures { result ≡ (rec_at s.now at).content.deleted }
{
    codec::read::<1>(s, at) == TOMBSTONE
}

// ---- which of two records wins

// Does the batch's record, at b of t, win over the store's, at a of s: the greater change tick, then the greater change
// replica.
pub fn wins(s: &[u8], a: usize, t: &[u8], b: usize) -> bool
    ensures { result ≡ wins (read_rec s.now a) (read_rec t.now b) }
{
    let mine = change_tick(s, a);
    let theirs = change_tick(t, b);
    if mine == theirs {
        return change_replica(s, a) < change_replica(t, b);
    }
    mine < theirs
}

// ---- the search for an item

// Is the item of the whole record at a place the given one.
fn has_item(s: &[u8], at: usize, item: Item) -> bool
    requires { WholeAt s.now at }
    ensures { result ≡ eqb (rec_at s.now at).item (item_of item) }
{
    Item::from_bytes(&s[at + ITEM_PLACE..at + ITEM_PLACE + 24]) == item
}

// The place of the item's record among those that a walker goes through from a place on.
pub fn place_of(s: &[u8], at: usize, item: Item) -> Option<usize>
    ensures { found_place result ≡ place_of s.now (item_of item) (places s.now at) }
{
    let mut p = at;
    // a while: the place moves by the length that is read
    while p < s.len() {
        let n = length_at(s, p);
        if n == 0 {
            return None;
        }
        if has_item(s, p, item) {
            return Some(p);
        }
        p += n;
    }
    None
}

// ---- the check of a table

// Are the bytes of the content tag zeros where the whole record at a place is a tombstone.
fn tag_kept(s: &[u8], at: usize) -> bool
    requires { WholeAt s.now at }
    ensures { result ≡ tag_kept (rec_at s.now at).content }
{
    if u64::from(s[at]) != TOMBSTONE {
        return true;
    }
    let t0 = leaves::first::<8>(&s[at + TAG..at + TAG + 8]);
    let t1 = leaves::first::<8>(&s[at + TAG + 8..at + TAG + 8 + 8]);
    t0 == 0 && t1 == 0
}

// Is the whole record at a place valid.
fn valid(s: &[u8], at: usize) -> bool
    requires { WholeAt s.now at }
    ensures { result ≡ valid_rec (rec_at s.now at) }
{
    let create = leaves::first::<8>(&s[at + CREATE_TICK_PLACE..at + CREATE_TICK_PLACE + 8]);
    let change = leaves::first::<8>(&s[at + CHANGE_TICK_PLACE..at + CHANGE_TICK_PLACE + 8]);
    if create < 1 {
        return false;
    }
    if change < create {
        return false;
    }
    if LARGEST_TICK < change {
        return false;
    }
    tag_kept(s, at)
}

// May an item come next: any item where none came before, else one above the last.
fn rises(last: Option<Item>, i: Item) -> bool
    ensures { result ≡ leb (least last) (item_of i) }
{
    match last {
        Some(l) => l < i,
        None => true,
    }
}

// Are the n records that take all bytes from a place on of known kinds, valid and strictly rising by item. Each is whole: the length of
// the bytes says so.
fn in_order(s: &[u8], n: u32, at: usize) -> bool
    requires { at + common_length * n ≡ length s.now }
    ensures { result ≡ shaped_at s.now 0 n at }
{
    let mut last: Option<Item> = None;
    for k in 0..n {
        let p = at + END * (k as usize);
        let size = record_length(u64::from(s[p]));
        if size == 0 {
            return false;
        }
        let i = Item::from_bytes(&s[p + ITEM_PLACE..p + ITEM_PLACE + 24]);
        if !rises(last, i) {
            return false;
        }
        if !valid(s, p) {
            return false;
        }
        last = Some(i);
    }
    true
}

// Do n whole records of known kinds stand from a place on, up to the very end of the bytes, valid and strictly rising by item. Where the
// bytes have another length than n records, none is looked at.
pub fn shaped(s: &[u8], n: u32, at: usize) -> bool
    ensures { result ≡ shaped_at s.now 0 n at }
{
    if s.len() < at {
        return false;
    }
    if s.len() - at != END * (n as usize) {
        return false;
    }
    in_order(s, n, at)
}
