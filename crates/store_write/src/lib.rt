// A store and a batch are written around a knowledge that the knowledge part writes: where its room in the buffer is, and then header and chosen
// records around it, and a batch's needed knowledge in front. A buffer that is too short is refused before a byte around it is written.
//
// Every public function is total.
#![tactic(auto)]

ghost use Rattle.std.specs.Prelude.{◌≡◌, ◌+◌, ◌≤◌, length, take};
ghost use Rattle.codec.specs.Answer.{answer_of};
ghost use Rattle.codec.specs.MethodEnded.{answer_under};
ghost use Rattle.codec.specs.Part.{placed};
ghost use Rattle.codec.specs.Total.{clamp};
ghost use Rattle.codec.specs.Ids.{item_of, replica_of};
ghost use Rattle.layout.specs.Permitted.{largest_records};
ghost use Rattle.replication.specs.OpenStore.{store_knowledge};
ghost use Rattle.replication.specs.OpenBatch.{batch_needed};
ghost use Rattle.records_join.specs.MethodJoin.{copied};
ghost use Rattle.store_headers.specs.MethodHeaders.{store_head, batch_head};
ghost use Rattle.store_write.specs.MethodStoring.{ends_with, leaves};
ghost use Rattle.store_write.specs.MethodClosing.{store_room, store_answer, store_after, batch_room, batch_answer, batch_after};

use codec::{Item, Numbered, Refusal, Replica, Span};
use records_join::Extent;

// ---- a store around a knowledge that is written into its room

// A part of a buffer.
#[derive(Clone, Copy)]
pub struct Room {
    pub from: usize,
    pub to: usize,
}

// Where a store's knowledge may stand in a buffer of so many bytes: from the end of the header to where the records begin. Nowhere, where the
// records are too many, or have no room.
pub fn room_in_store(room: usize, records: u32, e: Extent) -> Room
    ensures value { result ≡ store_room room (clamp records largest_records) e.count e.length }
    ensures from_le_to { (result.from ≤ result.to) × (result.to ≤ room) }
{
    let most = codec::clamp(records, layout::LARGEST_RECORDS) as usize;
    if most < e.count {
        return Room { from: 0, to: 0 };
    }
    if codec::beyond(room, store_headers::STORE, e.length) {
        return Room { from: 0, to: 0 };
    }
    Room {
        from: store_headers::STORE,
        to: room - e.length,
    }
}

// Writes header and records around a knowledge of n bytes.
fn put_around(
    out: &mut [u8],
    own: Replica,
    n: usize,
    s: &[u8],
    other: &[u8],
    picks: &[usize],
    e: Extent,
) -> Result<usize, Refusal>
    ensures value { answer_of result ≡ ends_with (store_knowledge + n + e.length) (length out.old) }
    ensures out_after { out.new ≡ leaves (store_knowledge + n + e.length) out.old
        (copied s.now other.now (placed out.old 0 (store_head (replica_of own) n e.count))
        (store_knowledge + n) (take e.count picks.now)) }
{
    if codec::beyond(out.len(), store_headers::STORE, n) {
        return Err(Refusal::BufferTooShort);
    }
    let end = store_headers::STORE + n;
    if codec::beyond(out.len(), end, e.length) {
        return Err(Refusal::BufferTooShort);
    }
    let total = end + e.length;
    store_headers::write_store_header(out, own, n, e.count);
    records_join::copy_picked(s, other, picks, e.count, out, end);
    Ok(total)
}

// Ends a call that writes a store, once its knowledge was written into its room or refused with `a`, whichever number it has: with that refusal,
// with the one for too many records where these left the knowledge no room, or with the whole store.
pub fn close_store<E: Numbered>(
    out: &mut [u8],
    own: Replica,
    a: Result<usize, E>,
    records: u32,
    s: &[u8],
    other: &[u8],
    picks: &[usize],
    e: Extent,
) -> Result<usize, E>
    ensures value { answer_under E.number_of result
        ≡ store_answer (answer_under E.number_of a) (clamp records largest_records) e.count e.length (length out.old) }
    ensures out_after { out.new ≡ store_after (answer_under E.number_of a) (replica_of own) s.now other.now picks.now
        e.count e.length out.old }
{
    match a {
        Ok(n) => Ok(put_around(out, own, n, s, other, picks, e)?),
        Err(r) => {
            let most = codec::clamp(records, layout::LARGEST_RECORDS) as usize;
            if e.count <= most {
                return Err(r);
            }
            let number: u32 = r.into();
            if number < u32::from(Refusal::BufferTooShort) {
                return Err(r);
            }
            Err(E::from(Refusal::TooManyRecords))
        }
    }
}

// ---- a batch around its learned knowledge

// Where a batch's learned knowledge may stand in a buffer of so many bytes: behind the header and so many bytes of needed, up to where the
// records begin. Nowhere, where there is no room.
pub fn room_in_batch(room: usize, needed: usize, e: Extent) -> Room
    ensures value { result ≡ batch_room room needed e.length }
    ensures from_le_to { (result.from ≤ result.to) × (result.to ≤ room) }
{
    if codec::beyond(room, store_headers::BATCH, needed) {
        return Room { from: 0, to: 0 };
    }
    let from = store_headers::BATCH + needed;
    if codec::beyond(room, from, e.length) {
        return Room { from: 0, to: 0 };
    }
    Room {
        from,
        to: room - e.length,
    }
}

// Writes header, needed and records around a learned knowledge of n bytes.
fn put_batch_around(
    out: &mut [u8],
    first: Item,
    last: Item,
    needed: &[u8],
    n: usize,
    s: &[u8],
    picks: &[usize],
    e: Extent,
) -> Result<usize, Refusal>
    ensures value { answer_of result ≡ ends_with (batch_needed + length needed.now + n + e.length) (length out.old) }
    ensures out_after { out.new ≡ leaves (batch_needed + length needed.now + n + e.length) out.old
        (copied s.now s.now
        (placed (placed out.old 0
        (batch_head (item_of first) (item_of last) (length needed.now) n e.count)) batch_needed needed.now)
        (batch_needed + length needed.now + n) (take e.count picks.now)) }
{
    let m = needed.len();
    if codec::beyond(out.len(), store_headers::BATCH, m) {
        return Err(Refusal::BufferTooShort);
    }
    let middle = store_headers::BATCH + m;
    if codec::beyond(out.len(), middle, n) {
        return Err(Refusal::BufferTooShort);
    }
    let end = middle + n;
    if codec::beyond(out.len(), end, e.length) {
        return Err(Refusal::BufferTooShort);
    }
    let total = end + e.length;
    store_headers::write_batch_header(out, Span { first, last }, m, n, e.count);
    codec::copy_part(needed, 0, m, out, store_headers::BATCH);
    records_join::copy_picked(s, s, picks, e.count, out, end);
    Ok(total)
}

// How a call ends that writes a batch, once its learned knowledge was written into its room or refused with `a`, whichever number it has: with
// that refusal, or with the whole batch.
pub fn close_batch<E: Numbered>(
    out: &mut [u8],
    first: Item,
    last: Item,
    a: Result<usize, E>,
    needed: &[u8],
    s: &[u8],
    picks: &[usize],
    e: Extent,
) -> Result<usize, E>
    ensures value { answer_under E.number_of result
        ≡ batch_answer (answer_under E.number_of a) (length needed.now) e.length (length out.old) }
    ensures out_after { out.new ≡ batch_after (answer_under E.number_of a) (item_of first) (item_of last) needed.now s.now
        picks.now e.count e.length out.old }
{
    let n = a?;
    Ok(put_batch_around(out, first, last, needed, n, s, picks, e)?)
}
