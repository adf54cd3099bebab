// The calls new, edit and delete. New writes a store with the empty knowledge and no records. Edit and delete write an item's record anew, at a
// tick above every tick known, and the own tick becomes that for every item.
//
// The changed store is the store's table joined with the table of the one new record, which wins over the item's record as its tick is larger.
// Its knowledge is a copy with the new tick over the old one where the own replica has a tick already.
// The calls are total; inside, the limits are numbers.
#![tactic(auto)]

ghost use Rattle.std.specs.Prelude.{◌≡◌, [], true, ◌<◌, length};
ghost use Rattle.codec.specs.Number.{be_at};
ghost use Rattle.codec.specs.Answer.{answer_of};
ghost use Rattle.codec.specs.Reply.{answer, after};
ghost use Rattle.codec.specs.Words.{words2, words3};
ghost use Rattle.layout.specs.Knowledge.{base};
ghost use Rattle.layout.specs.Decode.{decode};
ghost use Rattle.ticks.specs.Operations.{raise};
ghost use Rattle.replication.specs.Formats.{put_rec, Store};
ghost use Rattle.replication.specs.Operate.{changed_rec};
ghost use Rattle.replication.specs.MethodOpening.{store_at};
ghost use Rattle.replication.specs.Call.{brings};
ghost use Rattle.replication.specs.MethodReplies.{change_reply, store_reply};
ghost use Rattle.replication.specs.Calls.{gone, edit_reply, delete_reply};
ghost use Rattle.records_join.specs.MethodWritten.{record_of};
ghost use Rattle.results.specs.MethodOpened.{limits_of, result_of};
ghost use Rattle.codec.specs.MethodEnded.{Ended};
ghost use Rattle.replication.specs.Calls.{new_reply};
ghost use Rattle.edit.specs.MethodEditing.{item_of, content_of, version_replica, found_read, Becomes, Raises, Asked};

use codec::{Item, Refusal, Replica};
use layout::Limits;
use lookup::View;
use records_join::{RecordWords, TagWords, VersionWords};
use store_open::OpenStore;

// the place of a store's own id
const OWN: usize = 1;

const LARGEST_TICK: u64 = 9223372036854775807;

// the most records that are chosen
const PICKS: usize = layout::LARGEST_RECORDS as usize;

// What an edit or a delete writes: an item, and its content.
#[derive(Clone, Copy)]
struct Change {
    item: Item,
    deleted: bool,
    tag: TagWords,
}

// ---- the tag

// The words of a tag of 16 bytes.
fn tag_words(tag: &[u8]) -> TagWords
    requires { length tag.now ≡ 16 }
    ensures { words2 result.high result.low ≡ be_at tag.now 16 0 }
{
    TagWords {
        high: codec::read::<8>(tag, 0),
        low: codec::read::<8>(tag, 8),
    }
}

// ---- the record

// Is the item that was looked for absent, or its record a tombstone.
fn gone(s: &[u8], found: Option<usize>) -> bool
    ensures { result ≡ gone (found_read s.now found) }
{
    match found {
        Some(at) => records::tombstone(s, at),
        None => true,
    }
}

// The record of a change at a version. An item that is there keeps its create version, also a tombstone; one that is absent gets the change's.
fn changed_record(s: &[u8], found: Option<usize>, what: Change, change: VersionWords) -> RecordWords
    ensures result_value { record_of result ≡ changed_rec (content_of what) (item_of what) (version_replica change) change.tick
        (found_read s.now found) }
    ensures change_value { result.change ≡ change }
{
    let new = RecordWords {
        item: what.item,
        change,
        create: change,
        deleted: what.deleted,
        tag: what.tag,
    };
    match found {
        Some(at) => RecordWords {
            create: VersionWords {
                replica: records::create_replica(s, at),
                tick: records::create_tick(s, at),
            },
            ..new
        },
        None => new,
    }
}

// ---- the changed store

// Does the own replica come to a knowledge that has as many replicas as it may have.
fn one_too_many(k: &[u8], v: View, change: VersionWords, limits: Limits) -> bool
    requires { Raises limits k.now v change }
    ensures { result ≡ true → (limits_of limits).replicas
        < length (raise (version_replica change) change.tick (decode k.now)).replicas }
{
    if v.r < codec::clamp(limits.replicas, layout::LARGEST_REPLICAS) {
        return false;
    }
    lookup::key_of(k, v.r, change.replica).0 == v.r
}

// Writes the knowledge k of a store with the own tick raised. Where the own replica has a tick, it is the same for all items: the knowledge is
// copied, with the new tick in place of the old one. Else it is written from a table.
fn raise_own(
    k: &[u8],
    v: View,
    change: VersionWords,
    limits: Limits,
    out: &mut [u8],
) -> Result<usize, Refusal>
    requires { Raises limits k.now v change }
    ensures { Ended (result_of limits (raise (version_replica change) change.tick (decode k.now)))
        out.old out.new (answer_of result) }
{
    let VersionWords { replica, tick } = change;
    let first = Item {
        high: 0,
        middle: 0,
        low: 0,
    };
    let before = lookup::known_tick(k, v, first, replica);
    if before == 0 {
        return results::raise_opened(k, v, replica, tick, limits, out);
    }
    results_copied::copy_raised(k, v, replica, tick, out)
}

// Of a store with the knowledge k: TooManyReplicas where that is seen at once, the extent of its records joined with those of `one`, the knowledge with the own
// tick raised into its room, and then header and records around it.
fn write_changed(
    store: &[u8],
    k: &[u8],
    v: View,
    change: VersionWords,
    one: &[u8],
    limits: Limits,
    out: &mut [u8],
) -> Result<usize, Refusal>
    requires { Raises limits k.now v change }
    ensures { (st : Store) → Becomes store.now k.now (version_replica change) change.tick one.now st
        → Ended (store_reply (limits_of limits) st) out.old out.new (answer_of result) }
{
    if one_too_many(k, v, change, limits) {
        return Err(Refusal::TooManyReplicas);
    }
    let at = store_headers::STORE + k.len();
    let mut picks = [0usize; PICKS];
    let e = records_join::join(store, at, one, 0, &mut picks);
    let room = store_write::room_in_store(out.len(), limits.records, e);
    let raised = raise_own(k, v, change, limits, &mut out[room.from..room.to]);
    store_write::close_store(
        out,
        change.replica,
        raised,
        limits.records,
        store,
        one,
        &picks,
        e,
    )
}

// Writes a store of the knowledge k with a record in its place, at whose change version the own tick is raised.
fn put_changed(
    store: &[u8],
    k: &[u8],
    v: View,
    new: RecordWords,
    limits: Limits,
    out: &mut [u8],
) -> Result<usize, Refusal>
    requires { Raises limits k.now v new.change }
    ensures { (st : Store) → Becomes store.now k.now (record_of new).change_replica (record_of new).change_tick
        (put_rec (record_of new) []) st → Ended (store_reply (limits_of limits) st) out.old out.new (answer_of result) }
{
    let change = new.change;
    let mut one = [0u8; records_join::RECORD_LENGTH];
    new.write(&mut one, 0);
    write_changed(store, k, v, change, &one, limits, out)
}

// An edit or a delete of a store that was opened, whose knowledge is k, once the item was looked for: TicksExhausted, or the changed store.
fn change_item(
    store: &[u8],
    k: &[u8],
    opened: OpenStore,
    found: Option<usize>,
    what: Change,
    out: &mut [u8],
    limits: Limits,
) -> Result<usize, Refusal>
    requires { Asked (limits_of limits) store.now k.now opened found what }
    ensures { Ended (change_reply (limits_of limits) (store_at (limits_of limits) store.now)
        (content_of what) (item_of what)) out.old out.new (answer_of result) }
{
    let largest = lookup_ranges::largest_from(k, opened.own.view);
    if LARGEST_TICK <= largest {
        return Err(Refusal::TicksExhausted);
    }
    let change = VersionWords {
        replica: Replica::from_bytes(&store[OWN..OWN + 16]),
        tick: largest + 1,
    };
    let new = changed_record(store, found, what, change);
    put_changed(store, k, opened.own.view, new, limits, out)
}

// ---- the calls

// With limits of the caller's.
fn edit_within(
    store: &[u8],
    item: &[u8],
    tag: &[u8],
    out: &mut [u8],
    limits: Limits,
) -> Result<usize, Refusal>
    ensures { Ended (edit_reply (limits_of limits) store.now item.now (brings tag.now))
        out.old out.new (answer_of result) }
{
    let opened = store_open::open_store(store, limits)?;
    if item.len() != 24 {
        return Err(Refusal::WrongIds);
    }
    if tag.len() != 16 {
        return Err(Refusal::WrongIds);
    }
    let item = Item::from_bytes(item);
    let end = store_headers::STORE + opened.own.length;
    let found = records::place_of(store, end, item);
    let what = Change {
        item,
        deleted: false,
        tag: tag_words(tag),
    };
    change_item(
        store,
        &store[store_headers::STORE..end],
        opened,
        found,
        what,
        out,
        limits,
    )
}

// Writes the store after an edit: the item is live, with the given tag.
pub fn edit(store: &[u8], item: &[u8], tag: &[u8], out: &mut [u8]) -> Result<usize, Refusal>
    ensures value { answer_of result ≡ answer (edit_reply base store.now item.now (brings tag.now))
        (length out.old) }
    ensures out_after { out.new ≡ after (edit_reply base store.now item.now (brings tag.now))
        out.old }
{
    edit_within(store, item, tag, out, layout::LIMITS)
}

// With limits of the caller's.
fn delete_within(
    store: &[u8],
    item: &[u8],
    out: &mut [u8],
    limits: Limits,
) -> Result<usize, Refusal>
    ensures { Ended (delete_reply (limits_of limits) store.now item.now)
        out.old out.new (answer_of result) }
{
    let opened = store_open::open_store(store, limits)?;
    if item.len() != 24 {
        return Err(Refusal::WrongIds);
    }
    let item = Item::from_bytes(item);
    let end = store_headers::STORE + opened.own.length;
    let found = records::place_of(store, end, item);
    if gone(store, found) {
        return Err(Refusal::NoLiveItem);
    }
    let what = Change {
        item,
        deleted: true,
        tag: TagWords { high: 0, low: 0 },
    };
    change_item(
        store,
        &store[store_headers::STORE..end],
        opened,
        found,
        what,
        out,
        limits,
    )
}

// Writes the store after a delete: the item is a tombstone.
pub fn delete(store: &[u8], item: &[u8], out: &mut [u8]) -> Result<usize, Refusal>
    ensures value { answer_of result ≡ answer (delete_reply base store.now item.now) (length out.old) }
    ensures out_after { out.new ≡ after (delete_reply base store.now item.now) out.old }
{
    delete_within(store, item, out, layout::LIMITS)
}

// ---- a new store

// Writes a new store: its own id, the empty knowledge, no records.
pub fn new(own: &[u8], out: &mut [u8]) -> Result<usize, Refusal>
    ensures value { answer_of result ≡ answer (new_reply own.now) (length out.old) }
    ensures out_after { out.new ≡ after (new_reply own.now) out.old }
{
    if own.len() != 16 {
        return Err(Refusal::WrongIds);
    }
    if out.len() < store_headers::STORE + operations::EMPTY {
        return Err(Refusal::BufferTooShort);
    }
    let p = Replica::from_bytes(own);
    store_headers::write_store_header(out, p, operations::EMPTY, 0);
    operations::write_empty(out, store_headers::STORE);
    Ok(store_headers::STORE + operations::EMPTY)
}
