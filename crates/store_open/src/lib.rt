// The check of a store and of a batch: each test once, from the front to the records' versions.
//
// Both public functions are total and take limits of the caller's. For a valid store or batch they answer the sizes that its other
// functions go on from, so that nothing is checked again.
#![tactic(auto)]

ghost use Rattle.std.specs.Prelude.{◌≡◌, true, ℕ, ◌+◌, ◌*◌, ◌≤◌, ◌<◌, ltb, length};
ghost use Rattle.codec.specs.Total.{clamp};
ghost use Rattle.codec.specs.Ids.{item_of, replica_of};
ghost use Rattle.layout.specs.Permitted.{largest_records, within};
ghost use Rattle.layout.specs.Decode.{decode};
ghost use Rattle.layout.specs.MethodPlaces.{ids_place, vectors_place};
ghost use Rattle.replication.specs.OpenStore.{versions_in};
ghost use Rattle.replication.specs.OpenBatch.{first_id, last_id, batch_needed, lacks_change};
ghost use Rattle.replication.specs.MethodRecords.{records_at, shaped_at, each, WholeAt};
ghost use Rattle.lookup.specs.Method.{Open, key_at, stepped, vector_from, passed};
ghost use Rattle.lookup_ranges.specs.Method.{inside_of};
ghost use Rattle.records_versions.specs.Method.{moved_to, tick_in};
ghost use Rattle.store_open.specs.MethodEach.{slot_count, place_count, IdsOnce, VectorPlaces, CursorAt, asked_in, asked, carried_by};
ghost use Rattle.store_open.specs.Method.{NormalOf, NormalityOf, StoreHeader, store_opened, BatchHeader, batch_opened};

use codec::{Item, Refusal, Replica, Span};
use layout::{Limits, ReplicaKey, VectorIndex};
use lookup::{Cursor, View};

// the places of a store's own id, of the knowledge's length, of the count of records, and of the knowledge
const OWN: usize = 1;

const OWN_LENGTH: usize = 17;

const STORE_COUNT: usize = 21;

pub const STORE_KNOWLEDGE: usize = 25;

// the places of a batch's first and last id, of the lengths of its knowledges, of the count of records, and of the needed knowledge
const FIRST: usize = 1;

const LAST: usize = 25;

const NEEDED_LENGTH: usize = 49;

const LEARNED_LENGTH: usize = 53;

const BATCH_COUNT: usize = 57;

pub const BATCH_NEEDED: usize = 61;

// how many slots there are for guesses of keys, and the worth of a word's first byte
const SLOTS: usize = 64;

const FIRST_BYTE: u64 = 72057594037927936;

// room for the place of each clock vector in normal form
const PLACES: usize = layout::LARGEST_RANGES as usize + 1;

// A knowledge inside a store or batch that was opened, and the length of its bytes.
#[derive(Clone, Copy)]
pub struct KnowledgePart {
    pub length: usize,
    pub view: View,
}

// A store that was opened: its knowledge, and how many records it has.
#[derive(Clone, Copy)]
pub struct OpenStore {
    pub own: KnowledgePart,
    pub count: u32,
}

// A batch that was opened: its two knowledges, and how many records it has.
#[derive(Clone, Copy)]
pub struct OpenBatch {
    pub needed: KnowledgePart,
    pub learned: KnowledgePart,
    pub count: u32,
}

// ---- what stores and batches share

// The check of a knowledge's bytes, and then of their normal form; none where one of the two fails.
fn normal_part(k: &[u8], limits: Limits) -> Option<KnowledgePart>
    ensures { (n : ℕ) → NormalityOf (within limits.replicas limits.ranges n) k.now result }
{
    let counts = check_knowledge::check_within(&k[..], limits.replicas, limits.ranges).ok()?;
    let r = counts.r as u32;
    let v = counts.v as u32;
    let e = counts.e as u32;
    let g = counts.g as u32;
    if !normal_form::normal_in(k, r, v, e, g) {
        return None;
    }
    let start = lookup::start(r, v, e, g);
    Some(KnowledgePart {
        length: k.len(),
        view: View { r, start },
    })
}

// ---- the pass over the records
//
// What is done for each record is in private functions here, most of them with one caller: they are inlined, and nothing goes through memory.
// `pass` is as in lookup for this reason.

// ---- keys, by a guess that is looked at first

// The slot of a replica id, by its first and its last byte.
fn slot_of(p: Replica) -> usize
    ensures { result < slot_count }
{
    ((p.high / FIRST_BYTE + p.low % 256) % (SLOTS as u64)) as usize
}

// Fills the slots with the keys of the ids that fall into them. These are guesses: nothing is promised of them.
fn fill_slots(k: &[u8], r: u32, slots: &mut [u8])
    requires { (ids_place + 16 * r ≤ length k.now) × (slot_count ≤ length slots.old) }
    ensures { slot_count ≤ length slots.new }
{
    for key in 0..r {
        let at = layout::IDS_PLACE + 16 * (key as usize);
        slots[slot_of(Replica::from_bytes(&k[at..at + 16]))] = (key % 256) as u8;
    }
}

// The key of a replica id. Where the id of the guessed key is the one, no other is looked at: no id is there twice.
fn key_by(k: &[u8], r: u32, slots: &[u8], p: Replica) -> ReplicaKey
    requires { (IdsOnce k.now r) × (slot_count ≤ length slots.now) }
    ensures { result ≡ key_at k.now r (replica_of p) }
{
    let guess = slots[slot_of(p)] as u32;
    if r <= guess {
        return lookup::key_of(&k[..], r, p);
    }
    let at = layout::IDS_PLACE + 16 * (guess as usize);
    if leaves::is_replica(&k[at..at + 16], p) {
        return ReplicaKey(guess);
    }
    lookup::key_of(&k[..], r, p)
}

// ---- the places of clock vectors, in a table

// The place after the vector at a place; the place itself where the vector's count is not there.
fn next_vector(k: &[u8], at: usize) -> usize
    ensures { result ≡ stepped k.now 1 at }
{
    if codec::beyond(k.len(), at, 8) {
        return at;
    }
    at + 8 + 12 * (leaves::first::<4>(&k[at + 4..at + 4 + 4]) as usize)
}

// How many places the table gets, by the count of ranges: in normal form each vector but the first is used by a range.
fn how_many(ranges: u32) -> usize
    ensures { result ≤ place_count }
{
    if ranges < layout::LARGEST_RANGES {
        return ranges as usize + 1;
    }
    PLACES
}

// Fills the table with the places of the first n vectors.
fn fill_places(k: &[u8], r: u32, n: usize, places: &mut [usize])
    requires { n ≤ length places.old }
    ensures { VectorPlaces k.now r n places.new }
{
    let mut at = layout::VECTORS_PLACE + 16 * (r as usize);
    for j in 0..n {
        places[j] = at;
        at = next_vector(k, at);
    }
}

// The place of a vector from the table; where the table ends before it, by walking from another one whose place is known.
fn place_by(
    k: &[u8],
    r: u32,
    from: VectorIndex,
    at: usize,
    to: VectorIndex,
    places: &[usize],
) -> usize
    requires { (VectorPlaces k.now r (length places.now) places.now) × (at ≡ stepped k.now from.0 (vectors_place r)) }
    ensures { result ≡ vector_from k.now r from at to }
{
    let j = to.0 as usize;
    if places.len() <= j {
        return lookup::vector_place(&k[..], r, from, at, to);
    }
    places[j]
}

// ---- the cursor

// Passes the ranges whose bounds are at or below the item. The place of the vector stays what it was.
fn pass(k: &[u8], c: Cursor, i: Item) -> Cursor
    requires { c.next + 28 * c.left ≤ length k.now }
    ensures { result ≡ passed k.now (item_of i) c.left c }
{
    let mut d = c;
    // a while: it ends at the first bound that is above the item
    while 0 < d.left && !leaves::below(&k[d.next..d.next + 24], i) {
        d.index = VectorIndex(leaves::first::<4>(&k[d.next + 24..d.next + 24 + 4]) as u32);
        d.next += 28;
        d.left -= 1;
    }
    d
}

// The cursor, moved on to the item of the whole record at a place.
fn move_on(s: &[u8], at: usize, k: &[u8], r: u32, c: Cursor, places: &[usize]) -> Cursor
    requires { (WholeAt s.now at) × (CursorAt k.now r c) × (VectorPlaces k.now r (length places.now) places.now) }
    ensures { result ≡ moved_to s.now at k.now r c }
{
    let p = at + records::ITEM_PLACE;
    let d = pass(k, c, Item::from_bytes(&s[p..p + 24]));
    Cursor {
        vector: place_by(k, r, c.index, c.vector, d.index, places),
        ..d
    }
}

// ---- the versions of a record

// Is a tick at most the one that the clock vector at a place has for a replica.
fn tick_by(k: &[u8], r: u32, slots: &[u8], vector: usize, p: Replica, tick: u64) -> bool
    requires { (IdsOnce k.now r) × (slot_count ≤ length slots.now) }
    ensures { result ≡ tick_in k.now r vector (replica_of p) tick }
{
    let key = key_by(k, r, slots, p);
    tick <= lookup::tick_at(&k[..], vector, key)
}

// What is asked of a record and a knowledge: that it contains the change and the create version, or that it lacks the change version.
#[derive(Clone, Copy)]
enum Wanted {
    Contained,
    Lacking,
}

// The same of the whole record at a place and of the clock vector at a place. A create version of the same replica with no later tick is there where the change version is, and is
// not looked for.
fn asked_by(
    s: &[u8],
    at: usize,
    k: &[u8],
    r: u32,
    slots: &[u8],
    vector: usize,
    what: Wanted,
) -> bool
    requires { (WholeAt s.now at) × (IdsOnce k.now r) × (slot_count ≤ length slots.now) }
    ensures { result ≡ asked_in what s.now at k.now r vector }
{
    let a = at + records::CHANGE_REPLICA_PLACE;
    let p = Replica::from_bytes(&s[a..a + 16]);
    let b = at + records::CHANGE_TICK_PLACE;
    let tick = leaves::first::<8>(&s[b..b + 8]);
    let there = tick_by(k, r, slots, vector, p, tick);
    if let Wanted::Lacking = what {
        return !there;
    }
    if !there {
        return false;
    }
    let c = at + records::CREATE_REPLICA_PLACE;
    let q = Replica::from_bytes(&s[c..c + 16]);
    let d = at + records::CREATE_TICK_PLACE;
    let t = leaves::first::<8>(&s[d..d + 8]);
    if p == q && t <= tick {
        return true;
    }
    tick_by(k, r, slots, vector, q, t)
}

// ---- the records of a table

// What is asked of each of the n records from a place on, with the slots and the table of places filled.
fn each_by(
    s: &[u8],
    n: u32,
    at: usize,
    k: &[u8],
    v: View,
    slots: &[u8],
    places: &[usize],
    what: Wanted,
) -> bool
    requires { (shaped_at s.now 0 n at ≡ true) × (Open k.now v.r v.start)
        × (VectorPlaces k.now v.r (length places.now) places.now) × (slot_count ≤ length slots.now) }
    ensures { result ≡ each (asked what (decode k.now)) (records_at s.now n at) }
{
    let r = v.r;
    let mut c = v.start;
    let mut p = at;
    for _i in 0..n {
        c = move_on(s, p, k, r, c, places);
        if !asked_by(s, p, k, r, slots, c.vector, what) {
            return false;
        }
        p = records::behind(s, p);
    }
    true
}

// The same, with the slots and the table filled here.
fn each_asked(s: &[u8], n: u32, at: usize, k: &[u8], v: View, what: Wanted) -> bool
    requires { (shaped_at s.now 0 n at ≡ true) × (Open k.now v.r v.start) }
    ensures { result ≡ each (asked what (decode k.now)) (records_at s.now n at) }
{
    let mut slots = [0u8; SLOTS];
    let mut places = [0usize; PLACES];
    let m = how_many(v.start.left);
    fill_slots(k, v.r, &mut slots);
    fill_places(k, v.r, m, &mut places);
    each_by(s, n, at, k, v, &slots, &places[..m], what)
}

// Does a knowledge contain the change and the create version of each of the n records from a place on.
fn each_contained(s: &[u8], n: u32, at: usize, k: &[u8], v: View) -> bool
    requires { (shaped_at s.now 0 n at ≡ true) × (Open k.now v.r v.start) }
    ensures { result ≡ each (versions_in (decode k.now)) (records_at s.now n at) }
{
    each_asked(s, n, at, k, v, Wanted::Contained)
}

// Does it lack the change version of each.
fn each_lacking(s: &[u8], n: u32, at: usize, k: &[u8], v: View) -> bool
    requires { (shaped_at s.now 0 n at ≡ true) × (Open k.now v.r v.start) }
    ensures { result ≡ each (lacks_change (decode k.now)) (records_at s.now n at) }
{
    each_asked(s, n, at, k, v, Wanted::Lacking)
}

// ---- stores

// The check of a store from its knowledge k on, with the count of records.
fn store_from(s: &[u8], k: &[u8], count: u32, limits: Limits) -> Result<OpenStore, Refusal>
    requires { StoreHeader s.now k.now count }
    ensures { (m : ℕ) → count ≤ clamp m largest_records
        → result ≡ store_opened (within limits.replicas limits.ranges m) s.now }
{
    let Some(own) = normal_part(k, limits) else {
        return Err(Refusal::StoreNotValid);
    };
    if !lookup_ranges::own_alike(k, own.view, Replica::from_bytes(&s[OWN..OWN + 16])) {
        return Err(Refusal::StoreNotValid);
    }
    if !each_contained(s, count, STORE_KNOWLEDGE + k.len(), k, own.view) {
        return Err(Refusal::StoreNotValid);
    }
    Ok(OpenStore { own, count })
}

// Checks a store, with the most replicas, ranges and records, each clamped to 1 to its largest.
pub fn open_store(s: &[u8], limits: Limits) -> Result<OpenStore, Refusal>
    ensures { result ≡ store_opened (within limits.replicas limits.ranges limits.records) s.now }
{
    if s.len() < STORE_KNOWLEDGE {
        return Err(Refusal::StoreNotValid);
    }
    if codec::read::<1>(s, 0) != 3 {
        return Err(Refusal::StoreNotValid);
    }
    let n = codec::read::<4>(s, OWN_LENGTH) as usize;
    if s.len() - STORE_KNOWLEDGE < n {
        return Err(Refusal::StoreNotValid);
    }
    let count = codec::read::<4>(s, STORE_COUNT) as u32;
    let most = codec::clamp(limits.records, layout::LARGEST_RECORDS);
    if most < count {
        return Err(Refusal::StoreNotValid);
    }
    if !records::shaped(&s[..], count, STORE_KNOWLEDGE + n) {
        return Err(Refusal::StoreNotValid);
    }
    store_from(s, &s[STORE_KNOWLEDGE..STORE_KNOWLEDGE + n], count, limits)
}

// ---- batches

// Is a batch's last id below its first.
fn span_falls(s: &[u8]) -> bool
    requires { batch_needed ≤ length s.now }
    ensures { result ≡ ltb (last_id s.now) (first_id s.now) }
{
    let first = Item::from_bytes(&s[FIRST..FIRST + 24]);
    let last = Item::from_bytes(&s[LAST..LAST + 24]);
    last < first
}

// Do the ranges of a knowledge, but for those of vector 0, lie inside a batch's span.
fn inside_span(s: &[u8], k: &[u8], v: View) -> bool
    requires { batch_needed ≤ length s.now }
    ensures { result ≡ inside_of k.now v.start (first_id s.now) (last_id s.now) }
{
    let first = Item::from_bytes(&s[FIRST..FIRST + 24]);
    let last = Item::from_bytes(&s[LAST..LAST + 24]);
    lookup_ranges::inside(k, v, Span { first, last })
}

// Does learned, in l, contain both versions of each of the n records from a place on, and does needed, in k, lack its change version.
fn each_carried(s: &[u8], n: u32, at: usize, k: &[u8], v: View, l: &[u8], w: View) -> bool
    requires { (shaped_at s.now 0 n at ≡ true) × (Open k.now v.r v.start) × (Open l.now w.r w.start) }
    ensures { result ≡ each (carried_by (decode k.now) (decode l.now)) (records_at s.now n at) }
{
    if !each_contained(s, n, at, l, w) {
        return false;
    }
    each_lacking(s, n, at, k, v)
}

// The check of a batch from its learned knowledge l on, with the needed knowledge k, its sizes, and the count of records. A record
// whose change version is contained in learned has its item inside the span, as learned has.
fn batch_learned(
    s: &[u8],
    k: &[u8],
    needed: KnowledgePart,
    l: &[u8],
    count: u32,
    limits: Limits,
) -> Result<OpenBatch, Refusal>
    requires { (BatchHeader s.now k.now l.now count)
        × ((n : ℕ) → NormalOf (within limits.replicas limits.ranges n) k.now needed) }
    ensures { (m : ℕ) → count ≤ clamp m largest_records
        → result ≡ batch_opened (within limits.replicas limits.ranges m) s.now }
{
    let Some(learned) = normal_part(l, limits) else {
        return Err(Refusal::BatchNotValid);
    };
    if !inside_span(s, l, learned.view) {
        return Err(Refusal::BatchNotValid);
    }
    let at = BATCH_NEEDED + k.len() + l.len();
    if !each_carried(s, count, at, k, needed.view, l, learned.view) {
        return Err(Refusal::BatchNotValid);
    }
    Ok(OpenBatch {
        needed,
        learned,
        count,
    })
}

// The check of a batch from its needed knowledge k on, with the learned knowledge l and the count of records.
fn batch_needed(
    s: &[u8],
    k: &[u8],
    l: &[u8],
    count: u32,
    limits: Limits,
) -> Result<OpenBatch, Refusal>
    requires { BatchHeader s.now k.now l.now count }
    ensures { (m : ℕ) → count ≤ clamp m largest_records
        → result ≡ batch_opened (within limits.replicas limits.ranges m) s.now }
{
    let Some(needed) = normal_part(k, limits) else {
        return Err(Refusal::BatchNotValid);
    };
    batch_learned(s, k, needed, l, count, limits)
}

// Checks a batch, with the most replicas, ranges and records, each clamped to 1 to its largest. Inlined, so that one whose header is
// refused isn't answered through memory.
#[inline(always)]
pub fn open_batch(s: &[u8], limits: Limits) -> Result<OpenBatch, Refusal>
    ensures { result ≡ batch_opened (within limits.replicas limits.ranges limits.records) s.now }
{
    if s.len() < BATCH_NEEDED {
        return Err(Refusal::BatchNotValid);
    }
    if codec::read::<1>(s, 0) != 4 {
        return Err(Refusal::BatchNotValid);
    }
    let n = codec::read::<4>(s, NEEDED_LENGTH) as usize;
    let m = codec::read::<4>(s, LEARNED_LENGTH) as usize;
    if s.len() - BATCH_NEEDED < n + m {
        return Err(Refusal::BatchNotValid);
    }
    let count = codec::read::<4>(s, BATCH_COUNT) as u32;
    if codec::clamp(limits.records, layout::LARGEST_RECORDS) < count {
        return Err(Refusal::BatchNotValid);
    }
    if span_falls(s) {
        return Err(Refusal::BatchNotValid);
    }
    let learned = BATCH_NEEDED + n;
    let table = learned + m;
    if !records::shaped(&s[..], count, table) {
        return Err(Refusal::BatchNotValid);
    }
    batch_needed(
        s,
        &s[BATCH_NEEDED..learned],
        &s[learned..table],
        count,
        limits,
    )
}
