// The calls on stores and batches that write nothing: winner, learned, a store's own knowledge, and coverage.
//
// For a part one function finds side, place and length. The public calls hand out the part itself, of the lent slices, with the number
// beside it, or tell its place.
#![tactic(auto)]

ghost use Rattle.std.specs.Prelude.{◌≡◌, true};
ghost use Rattle.codec.specs.Ids.{item_of};
ghost use Rattle.layout.specs.Knowledge.{any_id, basic, base};
ghost use Rattle.layout.specs.Permitted.{within};
ghost use Rattle.layout.specs.Decode.{decode};
ghost use Rattle.codec.specs.Total.{read_at};
ghost use Rattle.replication.specs.Reading.{rec_length};
ghost use Rattle.replication.specs.Part.{part_of};
ghost use Rattle.replication.specs.Coverage.{coverage_of};
ghost use Rattle.std.specs.Prelude.{Ok};
ghost use Rattle.replication.specs.Queries.{part_bytes, part_number, places, place_of, winner_at, winner_part, learned_part};
ghost use Rattle.replication.specs.Queries.{knowledge_part, count_in, thousandths, coverage_answer};
ghost use Rattle.replication.specs.MethodRecords.{records_at, shaped_at};
ghost use Rattle.lookup.specs.Method.{Open};
ghost use Rattle.store_queries.specs.Lent.{PointsInto};
ghost use Rattle.store_queries.specs.Method.{Inside};

use codec::{Item, Refusal};
use layout::Limits;
use lookup::View;
use replication::{Counted, Location, Side};
use store_open::{BATCH_NEEDED, STORE_KNOWLEDGE};

// ---- parts

// The part that an answer tells, of the lent slices, and the number beside it.
fn part_of<'a>(
    p: Result<Option<Location>, Refusal>,
    store: &'a [u8],
    batch: &'a [u8],
    number: &mut u32,
) -> &'a [u8]
    requires { Inside (part_of p) store.now batch.now }
    ensures part { result.now ≡ part_bytes (part_of p) store.now batch.now }
    ensures place { PointsInto (part_of p) store.entry batch.entry result }
    ensures number { number.new ≡ part_number (part_of p) }
{
    match p {
        Ok(found) => {
            *number = 0;
            match found {
                None => &store[0..0],
                Some(l) => match l.side {
                    Side::Store => &store[l.at..l.at + l.length],
                    Side::Batch => &batch[l.at..l.at + l.length],
                },
            }
        }
        Err(e) => {
            *number = u32::from(e);
            &store[0..0]
        }
    }
}

// The record at a place of a side's bytes, as long as its kind says.
fn record_at(side: Side, s: &[u8], at: usize) -> Location
    ensures { result ≡ record { side = side; at = at; length = rec_length (read_at s.now 1 at) } }
{
    Location {
        side,
        at,
        length: records::record_length(codec::read::<1>(s, at)),
    }
}

// ---- winner

// The winner of an item among the store's records from a place on and the batch's from a place on.
fn winner_in(s: &[u8], x: usize, t: &[u8], y: usize, i: Item) -> Option<Location>
    ensures { part_of (Ok result) ≡ winner_at s.now t.now
        (place_of s.now (item_of i) (places s.now x))
        (place_of t.now (item_of i) (places t.now y)) }
{
    let mine = records::place_of(s, x, i);
    let theirs = records::place_of(t, y, i);
    match (mine, theirs) {
        (Some(a), Some(b)) => {
            if records::wins(s, a, t, b) {
                Some(record_at(Side::Batch, t, b))
            } else {
                Some(record_at(Side::Store, s, a))
            }
        }
        (Some(a), None) => Some(record_at(Side::Store, s, a)),
        (None, Some(b)) => Some(record_at(Side::Batch, t, b)),
        (None, None) => None,
    }
}

// The winner of an item, given as bytes, with limits of the caller's: the store's fault before the batch's, and then the item's.
fn winner_within(
    store: &[u8],
    batch: &[u8],
    item: &[u8],
    limits: Limits,
) -> Result<Option<Location>, Refusal>
    ensures { part_of result ≡ winner_part (within limits.replicas limits.ranges limits.records) store.now batch.now item.now }
{
    let a = store_open::open_store(&store[..], limits)?;
    let b = store_open::open_batch(&batch[..], limits)?;
    if item.len() != 24 {
        return Err(Refusal::WrongIds);
    }
    let i = Item::from_bytes(item);
    let x = STORE_KNOWLEDGE + a.own.length;
    let y = BATCH_NEEDED + b.needed.length + b.learned.length;
    Ok(winner_in(store, x, batch, y, i))
}

// Where the winner of an item stands, on which side.
pub fn winner_part(store: &[u8], batch: &[u8], item: &[u8]) -> Result<Option<Location>, Refusal>
    ensures { part_of result ≡ winner_part base store.now batch.now item.now }
{
    winner_within(store, batch, item, layout::LIMITS)
}

// The winner of an item, as a part of the store's or of the batch's bytes, and the number beside it: 0, or the refusal's. The part is
// empty on a refusal and for an item on neither side.
pub fn winner<'a>(store: &'a [u8], batch: &'a [u8], item: &[u8], number: &mut u32) -> &'a [u8]
    ensures part { result.now ≡ part_bytes
        (winner_part base store.now batch.now item.now) store.now batch.now }
    ensures place { PointsInto
        (winner_part base store.now batch.now item.now) store.entry batch.entry result }
    ensures number { number.new ≡ part_number
        (winner_part base store.now batch.now item.now) }
{
    let p = winner_part(store, batch, item);
    part_of(p, store, batch, number)
}

// ---- learned

// The part of a batch's bytes that is its learned knowledge, with limits of the caller's.
fn learned_within(batch: &[u8], limits: Limits) -> Result<Option<Location>, Refusal>
    ensures { part_of result ≡ learned_part (within limits.replicas limits.ranges limits.records) batch.now }
{
    let b = store_open::open_batch(&batch[..], limits)?;
    Ok(Some(Location {
        side: Side::Batch,
        at: BATCH_NEEDED + b.needed.length,
        length: b.learned.length,
    }))
}

// Where a batch's learned knowledge stands.
pub fn learned_part(batch: &[u8]) -> Result<Option<Location>, Refusal>
    ensures { part_of result ≡ learned_part base batch.now }
{
    learned_within(batch, layout::LIMITS)
}

// A batch's learned knowledge, as a part of the batch, uncopied, and the number beside it: 0, or the refusal's, and then the
// part is empty.
pub fn learned<'a>(batch: &'a [u8], number: &mut u32) -> &'a [u8]
    ensures part { result.now ≡ part_bytes (learned_part base batch.now) batch.now batch.now }
    ensures place { PointsInto (learned_part base batch.now) batch.entry batch.entry result }
    ensures number { number.new ≡ part_number (learned_part base batch.now) }
{
    let p = learned_part(batch);
    part_of(p, batch, batch, number)
}

// ---- a store's own knowledge

// The part of a store's bytes that is its own knowledge, with limits of the caller's.
fn knowledge_within(store: &[u8], limits: Limits) -> Result<Option<Location>, Refusal>
    ensures { part_of result ≡ knowledge_part (within limits.replicas limits.ranges limits.records) store.now }
{
    let a = store_open::open_store(&store[..], limits)?;
    Ok(Some(Location {
        side: Side::Store,
        at: STORE_KNOWLEDGE,
        length: a.own.length,
    }))
}

// Where a store's own knowledge stands.
pub fn knowledge_part(store: &[u8]) -> Result<Option<Location>, Refusal>
    ensures { part_of result ≡ knowledge_part base store.now }
{
    knowledge_within(store, layout::LIMITS)
}

// A store's own knowledge, as a part of the store, and the number beside it: 0, or the refusal's, and then the part is empty.
pub fn own_knowledge<'a>(store: &'a [u8], number: &mut u32) -> &'a [u8]
    ensures part { result.now ≡ part_bytes (knowledge_part base store.now) store.now store.now }
    ensures place { PointsInto (knowledge_part base store.now) store.entry store.entry result }
    ensures number { number.new ≡ part_number (knowledge_part base store.now) }
{
    let p = knowledge_part(store);
    part_of(p, store, store, number)
}

// ---- coverage

// How many of the n records from a place on have a change version that the knowledge contains.
fn count_in(s: &[u8], n: u32, at: usize, k: &[u8], v: View) -> u32
    requires { (Open k.now v.r v.start) × (shaped_at s.now 0 n at ≡ true) }
    ensures { result ≡ count_in (decode k.now) (records_at s.now n at) }
{
    let r = v.r;
    let mut contained: u32 = 0;
    let mut p = at;
    let mut c = v.start;
    for _i in 0..n {
        c = records_versions::move_to(s, p, k, r, c);
        if records_versions::change_in(s, p, k, r, c.vector) {
            contained += 1;
        }
        p = records::behind(s, p);
    }
    contained
}

// 1000 times those contained by all, to the nearest, an exact half up; 1000 for no records.
fn thousandths(contained: u32, all: u32) -> usize
    ensures { result ≡ thousandths contained all }
{
    if all == 0 {
        return 1000;
    }
    (2000 * (contained as usize) + all as usize) / (2 * (all as usize))
}

// Coverage with limits of the caller's.
fn coverage_within(store: &[u8], knowledge: &[u8], limits: Limits) -> Result<Counted, Refusal>
    ensures { coverage_of result ≡ coverage_answer (any_id (within limits.replicas limits.ranges limits.records)) store.now knowledge.now }
{
    let a = store_open::open_store(&store[..], limits)?;
    let v = lookup::open_within(&knowledge[..], limits)?;
    let n = count_in(store, a.count, STORE_KNOWLEDGE + a.own.length, knowledge, v);
    Ok(Counted {
        contained: n as usize,
        all: a.count as usize,
        thousandths: thousandths(n, a.count),
    })
}

// How many of a store's records have a change version that the knowledge contains, how many records there are, and the first
// as thousandths of the second.
pub fn coverage(store: &[u8], knowledge: &[u8]) -> Result<Counted, Refusal>
    ensures { coverage_of result ≡ coverage_answer basic store.now knowledge.now }
{
    coverage_within(store, knowledge, layout::LIMITS)
}
