// The call make: a batch of what a store holds in a span and a given knowledge lacks.
//
// Needed is the normal form of the given knowledge, learned the store's own knowledge projected onto the span. Where the given knowledge is in
// normal form it is needed as it stands; else needed is written into scratch first, since its length says where learned begins. Learned is
// written into its room in the buffer, a copy of the store's own knowledge where the span is all ids, and header, needed and records around it.
// The records are looked up in the given knowledge as it stands, which contains the same versions as its normal form.
#![tactic(auto)]

ghost use Rattle.std.specs.Prelude.{◌≡◌, length};
ghost use Rattle.codec.specs.Answer.{answer_of};
ghost use Rattle.codec.specs.Reply.{gives, answer, after};
ghost use Rattle.codec.specs.MethodEnded.{Ended, end_of};
ghost use Rattle.layout.specs.Knowledge.{any_id, basic};
ghost use Rattle.replication.specs.Calls.{make_reply};
ghost use Rattle.records_join.specs.MethodJoin.{size_from, fronted};
ghost use Rattle.results.specs.MethodOpened.{limits_of};
ghost use Rattle.make.specs.Method.{Inputs, Parts, all_ids, learned_end, chosen_places, needed_reply, made_reply};

use codec::{Item, Refusal, Span};
use layout::Limits;
use lookup::View;
use records_join::Extent;
use store_open::{KnowledgePart, STORE_KNOWLEDGE};

// the lowest and the highest item
const LOWEST: Item = Item {
    high: 0,
    middle: 0,
    low: 0,
};

const HIGHEST: Item = Item {
    high: u64::MAX,
    middle: u64::MAX,
    low: u64::MAX,
};

const REPLICAS: usize = layout::LARGEST_REPLICAS as usize;

const RANGES: usize = layout::LARGEST_RANGES as usize;

// the bytes of the longest knowledge at the largest limits: with one vector for each range and vector 0, and all replicas in each vector but that
const LONGEST: usize = 77
    + 16 * REPLICAS
    + 8 * (RANGES + 1)
    + 12 * (REPLICAS * RANGES)
    + 28 * RANGES;

// scratch for the normal form of a short knowledge, and how long such a knowledge is at most
const SHORT: usize = 1024;

const SHORT_KNOWLEDGE: usize = 900;

// What a make goes by once its inputs are accepted: the place of the store's records, the store's own knowledge and the given one as they were
// opened, the span, and the limits.
#[derive(Clone, Copy)]
struct Task {
    table: usize,
    own: View,
    given: View,
    span: Span,
    limits: Limits,
}

// ---- learned

// Is a span all ids.
fn is_all(span: Span) -> bool
    ensures { result ≡ all_ids span }
{
    span.first == LOWEST && span.last == HIGHEST
}

// Writes learned: mine, the store's own knowledge, as it stands where the span is all ids, and else projected.
fn write_learned(mine: &[u8], w: Task, out: &mut [u8]) -> Result<usize, Refusal>
    ensures { end_of out.new (answer_of result) ≡ learned_end mine.now w out.old }
{
    if is_all(w.span) {
        return results_copied::copy_whole(mine, out);
    }
    results::project_opened(mine, w.own, w.span, w.limits, out)
}

// ---- the records, and the end

// The places of the records that the batch carries, into the front of `picks`; how many there are, and how many bytes they have.
fn select_records(store: &[u8], knowledge: &[u8], w: Task, picks: &mut [usize]) -> Extent
    ensures count_value { (result.count ≡ length (chosen_places store.now knowledge.now w))
        × (result.length ≡ size_from store.now store.now (chosen_places store.now knowledge.now w)) }
    ensures picks_after { picks.new ≡ fronted picks.old (chosen_places store.now knowledge.now w) }
{
    records_select::select(store, w.table, knowledge, w.given, w.span, picks)
}

// Once needed is there: learned into its room, and then header, needed and records around it. Mine is the store's own knowledge.
fn make_learned(
    out: &mut [u8],
    w: Task,
    needed: &[u8],
    store: &[u8],
    mine: &[u8],
    knowledge: &[u8],
) -> Result<usize, Refusal>
    requires { (Parts store.now mine.now knowledge.now w) × (needed_reply knowledge.now w ≡ gives needed.now) }
    ensures { Ended (made_reply store.now knowledge.now w) out.old out.new (answer_of result) }
{
    let mut picks = [0usize; layout::LARGEST_RECORDS as usize];
    let e = select_records(store, knowledge, w, &mut picks);
    let room = store_write::room_in_batch(out.len(), needed.len(), e);
    let learned = write_learned(mine, w, &mut out[room.from..room.to]);
    store_write::close_batch(
        out,
        w.span.first,
        w.span.last,
        learned,
        needed,
        store,
        &picks,
        e,
    )
}

// ---- needed

// In scratch for the longest knowledge, where its normal form has room.
fn make_long(
    out: &mut [u8],
    w: Task,
    store: &[u8],
    mine: &[u8],
    knowledge: &[u8],
) -> Result<usize, Refusal>
    requires { Parts store.now mine.now knowledge.now w }
    ensures { Ended (made_reply store.now knowledge.now w) out.old out.new (answer_of result) }
{
    let mut long = [0u8; LONGEST];
    let n = results::normalise_by_table(knowledge, w.given, w.limits, &mut long)?;
    make_learned(out, w, &long[..n], store, mine, knowledge)
}

// In short scratch where the given knowledge is short and its normal form has room there.
fn make_normalised(
    out: &mut [u8],
    w: Task,
    store: &[u8],
    mine: &[u8],
    knowledge: &[u8],
) -> Result<usize, Refusal>
    requires { Parts store.now mine.now knowledge.now w }
    ensures { Ended (made_reply store.now knowledge.now w) out.old out.new (answer_of result) }
{
    if SHORT_KNOWLEDGE < knowledge.len() {
        return make_long(out, w, store, mine, knowledge);
    }
    let mut short = [0u8; SHORT];
    match results::normalise_by_table(knowledge, w.given, w.limits, &mut short) {
        Ok(n) => make_learned(out, w, &short[..n], store, mine, knowledge),
        Err(e) => match e {
            Refusal::BufferTooShort => make_long(out, w, store, mine, knowledge),
            _ => Err(e),
        },
    }
}

// The given knowledge as it stands where it is in normal form.
fn make_needed(
    out: &mut [u8],
    w: Task,
    store: &[u8],
    mine: &[u8],
    knowledge: &[u8],
) -> Result<usize, Refusal>
    requires { Parts store.now mine.now knowledge.now w }
    ensures { Ended (made_reply store.now knowledge.now w) out.old out.new (answer_of result) }
{
    if normal_form::normal_opened(knowledge, w.given) {
        return make_learned(out, w, knowledge, store, mine, knowledge);
    }
    make_normalised(out, w, store, mine, knowledge)
}

// ---- the call

// Where the store and the knowledge are accepted: WrongIds for the span, or what is made.
fn make_open(
    store: &[u8],
    own: KnowledgePart,
    knowledge: &[u8],
    given: View,
    first: &[u8],
    last: &[u8],
    out: &mut [u8],
    limits: Limits,
) -> Result<usize, Refusal>
    requires { Inputs (limits_of limits) store.now own knowledge.now given }
    ensures { Ended (make_reply (any_id (limits_of limits)) store.now knowledge.now first.now last.now)
        out.old out.new (answer_of result) }
{
    if lookup::wrong_span(first, last) {
        return Err(Refusal::WrongIds);
    }
    let first = Item::from_bytes(first);
    let last = Item::from_bytes(last);
    let table = STORE_KNOWLEDGE + own.length;
    let w = Task {
        table,
        own: own.view,
        given,
        span: Span { first, last },
        limits,
    };
    make_needed(out, w, store, &store[STORE_KNOWLEDGE..table], knowledge)
}

// With limits of the caller's.
fn make_within(
    store: &[u8],
    knowledge: &[u8],
    first: &[u8],
    last: &[u8],
    out: &mut [u8],
    limits: Limits,
) -> Result<usize, Refusal>
    ensures { Ended (make_reply (any_id (limits_of limits))
        store.now knowledge.now first.now last.now) out.old out.new (answer_of result) }
{
    let opened = store_open::open_store(store, limits)?;
    let given = lookup::open_within(knowledge, limits)?;
    make_open(
        store, opened.own, knowledge, given, first, last, out, limits,
    )
}

// Makes the batch of a store's records in a span, from the first id to the last, that a given knowledge lacks. The store is checked before the
// knowledge, and the knowledge before the span.
pub fn make(
    store: &[u8],
    knowledge: &[u8],
    first: &[u8],
    last: &[u8],
    out: &mut [u8],
) -> Result<usize, Refusal>
    ensures value { answer_of result ≡ answer (make_reply basic store.now knowledge.now first.now last.now)
        (length out.old) }
    ensures out_after { out.new ≡ after (make_reply basic store.now knowledge.now first.now last.now)
        out.old }
{
    make_within(store, knowledge, first, last, out, layout::LIMITS)
}
