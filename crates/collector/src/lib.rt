// The C interface: each function is thin, and its contract says what every byte behind every pointer is afterwards. What C itself calls
// are the functions of the crate `collector_c`, which call these and have the same contracts: a library exports nothing.
#![tactic(auto)]

ghost use Rattle.std.specs.Prelude.{◌≡◌, length};
ghost use Rattle.codec.specs.Answer.{answer_of};
ghost use Rattle.codec.specs.Reply.{answer, number_of, written_of};
ghost use Rattle.layout.specs.Knowledge.{basic, base};
ghost use Rattle.layout.specs.Parse.{checked_by};
ghost use Rattle.layout.specs.Answer.{checked_number, checked_sizes};
ghost use Rattle.ticks.specs.Calls.{contain_number, contain_value, contain_answer, lead_number, lead_value, lead_answer};
ghost use Rattle.ticks.specs.Calls.{cover_number, cover_value, cover_answer};
ghost use Rattle.ticks.specs.Calls.{normalise_reply, merge_reply, project_reply};
ghost use Rattle.ticks.specs.Compare.{compare_reply, order_value};
ghost use Rattle.replication.specs.Calls.{new_reply, edit_reply, delete_reply, make_reply, apply_reply};
ghost use Rattle.replication.specs.Call.{brings};
ghost use Rattle.replication.specs.Part.{part_of};
ghost use Rattle.replication.specs.Queries.{winner_part, learned_part, knowledge_part, length_at};
ghost use Rattle.replication.specs.Queries.{coverage_number, coverage_contained, coverage_all, coverage_thousandths, coverage_answer};
ghost use Rattle.collector.specs.Called.{Called, PartCalled, SideCalled};

use codec::Refusal;
use replication::{Location, Side};

// Checks a knowledge: its sizes r, v, e and g, or the refusal's number, and then no size changes.
#[unsafe(no_mangle)]
pub extern "C" fn sync_check(knowledge: &[u8], sizes: &mut [u64; 4]) -> u32
    ensures { let a = checked_by basic knowledge.now in
        (result ≡ checked_number a) × (sizes.new ≡ checked_sizes a sizes.old) }
{
    match check_knowledge::check(knowledge) {
        Ok(n) => {
            sizes[0] = n.r as u64;
            sizes[1] = n.v as u64;
            sizes[2] = n.e as u64;
            sizes[3] = n.g as u64;
            0
        }
        Err(fault) => u32::from(fault),
    }
}

// Does a knowledge contain the version of an item, a replica and a tick: 1 or 0; or the refusal's number, and then nothing
// changes.
#[unsafe(no_mangle)]
pub extern "C" fn sync_contain(
    knowledge: &[u8],
    item: &[u8],
    replica: &[u8],
    tick: u64,
    contained: &mut u32,
) -> u32
    ensures { let a = contain_answer basic knowledge.now item.now replica.now tick in
        (result ≡ contain_number a) × (contained.new ≡ contain_value a contained.old) }
{
    match lookup::contain(knowledge, item, replica, tick) {
        Ok(yes) => {
            *contained = u32::from(yes);
            0
        }
        Err(e) => u32::from(e),
    }
}

// The tick that the first knowledge knows of an item and a replica minus the second's; or the refusal's number, and then
// nothing changes.
#[unsafe(no_mangle)]
pub extern "C" fn sync_lead(
    first: &[u8],
    second: &[u8],
    item: &[u8],
    replica: &[u8],
    lead: &mut i64,
) -> u32
    ensures { let a = lead_answer basic first.now second.now item.now replica.now in
        (result ≡ lead_number a) × (lead.new ≡ lead_value a lead.old) }
{
    match lookup::lead(first, second, item, replica) {
        Ok(x) => {
            *lead = x;
            0
        }
        Err(e) => u32::from(e),
    }
}

// Does the first knowledge know at least as much as the second from the first id to the last: 1 or 0; or the refusal's
// number, and then nothing changes.
#[unsafe(no_mangle)]
pub extern "C" fn sync_cover(
    knowledge: &[u8],
    other: &[u8],
    first: &[u8],
    last: &[u8],
    covers: &mut u32,
) -> u32
    ensures { let a = cover_answer basic knowledge.now other.now first.now last.now in
        (result ≡ cover_number a) × (covers.new ≡ cover_value a covers.old) }
{
    match cover::cover(knowledge, other, first, last) {
        Ok(yes) => {
            *covers = u32::from(yes);
            0
        }
        Err(e) => u32::from(e),
    }
}

// How a call that writes ends for C: the length through the pointer and 0, or the refusal's number, and then nothing changes.
fn answer_to_c(a: Result<usize, Refusal>, written: &mut u64) -> u32
    ensures number { result ≡ number_of (answer_of a) }
    ensures count { written.new ≡ written_of (answer_of a) written.old }
{
    match a {
        Ok(n) => {
            *written = n as u64;
            0
        }
        Err(refusal) => u32::from(refusal),
    }
}

// Writes the normal form of a knowledge, and its length; or gives the refusal's number, and then nothing changes.
#[unsafe(no_mangle)]
pub extern "C" fn sync_normalise(knowledge: &[u8], out: &mut [u8], written: &mut u64) -> u32
    ensures { Called (normalise_reply basic knowledge.now) result
        written.old written.new out.old out.new }
{
    let a = operations::normalise(knowledge, out);
    answer_to_c(a, written)
}

// Writes the knowledge that knows the larger of the ticks that two know, and its length; or gives the refusal's number, and then
// nothing changes.
#[unsafe(no_mangle)]
pub extern "C" fn sync_merge(first: &[u8], second: &[u8], out: &mut [u8], written: &mut u64) -> u32
    ensures { Called (merge_reply basic first.now second.now) result
        written.old written.new out.old out.new }
{
    let a = operations::merge(first, second, out);
    answer_to_c(a, written)
}

// Writes what a knowledge knows from the first id to the last, and its length; or gives the refusal's number, and then nothing
// changes.
#[unsafe(no_mangle)]
pub extern "C" fn sync_project(
    knowledge: &[u8],
    first: &[u8],
    last: &[u8],
    out: &mut [u8],
    written: &mut u64,
) -> u32
    ensures { Called (project_reply basic knowledge.now first.now last.now) result
        written.old written.new out.old out.new }
{
    let a = operations::project(knowledge, first, last, out);
    answer_to_c(a, written)
}

// Which of two knowledges is ahead, over all ids: the order (0 alike, 1 the first is behind, 2 the first is ahead, 3 each lacks
// something), and for each that lacks something the first place where it does, with both ticks, and the length of these; or the
// refusal's number, and then nothing changes.
#[unsafe(no_mangle)]
pub extern "C" fn sync_compare(
    first: &[u8],
    second: &[u8],
    order: &mut u32,
    out: &mut [u8],
    written: &mut u64,
) -> u32
    ensures called { Called (compare_reply basic first.now second.now) result
        written.old written.new out.old out.new }
    ensures value { order.new ≡ order_value basic first.now second.now
        (answer (compare_reply basic first.now second.now) (length out.old)) order.old }
{
    let a = compare::compare(first, second, order, out);
    answer_to_c(a, written)
}

// ---- stores and batches: the calls that write one

// Writes a new store under a replica id, with the empty knowledge and no records, and its length; or gives the refusal's number, and then
// nothing changes.
#[unsafe(no_mangle)]
pub extern "C" fn sync_new(own: &[u8], out: &mut [u8], written: &mut u64) -> u32
    ensures { Called (new_reply own.now) result
        written.old written.new out.old out.new }
{
    let a = edit::new(own, out);
    answer_to_c(a, written)
}

// Writes a store with an item edited, and its length; or gives the refusal's number, and then nothing changes.
#[unsafe(no_mangle)]
pub extern "C" fn sync_edit(
    store: &[u8],
    item: &[u8],
    tag: &[u8],
    out: &mut [u8],
    written: &mut u64,
) -> u32
    ensures { Called (edit_reply base store.now item.now (brings tag.now)) result
        written.old written.new out.old out.new }
{
    let a = edit::edit(store, item, tag, out);
    answer_to_c(a, written)
}

// Writes a store with an item deleted, and its length; or gives the refusal's number, and then nothing changes.
#[unsafe(no_mangle)]
pub extern "C" fn sync_delete(store: &[u8], item: &[u8], out: &mut [u8], written: &mut u64) -> u32
    ensures { Called (delete_reply base store.now item.now) result
        written.old written.new out.old out.new }
{
    let a = edit::delete(store, item, out);
    answer_to_c(a, written)
}

// Writes the batch that a store makes for a knowledge and a span of items, and its length; or gives the refusal's number, and then
// nothing changes.
#[unsafe(no_mangle)]
pub extern "C" fn sync_make(
    store: &[u8],
    knowledge: &[u8],
    first: &[u8],
    last: &[u8],
    out: &mut [u8],
    written: &mut u64,
) -> u32
    ensures { Called (make_reply basic store.now knowledge.now first.now last.now) result
        written.old written.new out.old out.new }
{
    let a = make::make(store, knowledge, first, last, out);
    answer_to_c(a, written)
}

// Writes a store with a batch applied, and its length; or gives the refusal's number, and then nothing changes.
#[unsafe(no_mangle)]
pub extern "C" fn sync_apply(store: &[u8], batch: &[u8], out: &mut [u8], written: &mut u64) -> u32
    ensures { Called (apply_reply base store.now batch.now) result
        written.old written.new out.old out.new }
{
    let a = apply::apply(store, batch, out);
    answer_to_c(a, written)
}

// ---- stores and batches: the calls that write nothing

// How a call that returns a part ends for C: the side (0 nobody's, 1 the store's, 2 the batch's), the place and the length through the
// pointers, and 0; or the refusal's number, and then nothing changes.
fn part_to_c(
    p: Result<Option<Location>, Refusal>,
    side: &mut u32,
    at: &mut u64,
    length: &mut u64,
) -> u32
    ensures { SideCalled (part_of p) result
        side.old side.new at.old at.new length.old length.new }
{
    let part = match p {
        Ok(x) => x,
        Err(e) => return u32::from(e),
    };
    match part {
        None => {
            *side = 0;
            *at = 0;
            *length = 0;
        }
        Some(l) => {
            *side = match l.side {
                Side::Store => 1,
                Side::Batch => 2,
            };
            *at = l.at as u64;
            *length = l.length as u64;
        }
    }
    0
}

// Where the winner of an item stands: the side (0 none, 1 the store's, 2 the batch's), the place and the length; or the refusal's
// number, and then nothing changes.
#[unsafe(no_mangle)]
pub extern "C" fn sync_winner(
    store: &[u8],
    batch: &[u8],
    item: &[u8],
    side: &mut u32,
    at: &mut u64,
    length: &mut u64,
) -> u32
    ensures { SideCalled (winner_part base store.now batch.now item.now) result
        side.old side.new at.old at.new length.old length.new }
{
    let p = store_queries::winner_part(store, batch, item);
    part_to_c(p, side, at, length)
}

// Where a batch's learned knowledge stands, and its length; or the refusal's number, and then nothing changes.
#[unsafe(no_mangle)]
pub extern "C" fn sync_learned(batch: &[u8], at: &mut u64, length: &mut u64) -> u32
    ensures { PartCalled (learned_part base batch.now) result
        at.old at.new length.old length.new }
{
    let p = store_queries::learned_part(batch);
    let mut side: u32 = 0;
    part_to_c(p, &mut side, at, length)
}

// Where a store's own knowledge stands, and its length; or the refusal's number, and then nothing changes.
#[unsafe(no_mangle)]
pub extern "C" fn sync_knowledge(store: &[u8], at: &mut u64, length: &mut u64) -> u32
    ensures { PartCalled (knowledge_part base store.now) result
        at.old at.new length.old length.new }
{
    let p = store_queries::knowledge_part(store);
    let mut side: u32 = 0;
    part_to_c(p, &mut side, at, length)
}

// How many of a store's records have a change version that the knowledge contains, how many records there are, and the first as
// thousandths of the second, to the nearest, an exact half up; or the refusal's number, and then nothing changes.
#[unsafe(no_mangle)]
pub extern "C" fn sync_coverage(
    store: &[u8],
    knowledge: &[u8],
    contained: &mut u64,
    all: &mut u64,
    thousandths: &mut u64,
) -> u32
    ensures { let a = coverage_answer basic store.now knowledge.now in
        (result ≡ coverage_number a)
        × ((contained.new ≡ coverage_contained a contained.old)
        × ((all.new ≡ coverage_all a all.old)
        × (thousandths.new ≡ coverage_thousandths a thousandths.old))) }
{
    match store_queries::coverage(store, knowledge) {
        Ok(c) => {
            *contained = c.contained as u64;
            *all = c.all as u64;
            *thousandths = c.thousandths as u64;
            0
        }
        Err(e) => u32::from(e),
    }
}

// The length of the whole record of a known kind at a place of a lent table, 0 where none stands there. It refuses nothing.
#[unsafe(no_mangle)]
pub extern "C" fn sync_walk(table: &[u8], at: u64, length: &mut u64) -> u32
    ensures number { result ≡ 0 }
    ensures size { length.new ≡ length_at table.now at }
{
    let n = records::length_at(table, at as usize);
    *length = n as u64;
    0
}
