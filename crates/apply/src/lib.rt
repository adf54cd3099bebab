// The call apply: a store takes over a batch's records, each where it wins, and its learned knowledge.
//
// The store is checked first, then the batch, each once. Everything that refuses the call is decided before the first byte is written.
#![tactic(auto)]

ghost use Rattle.std.specs.Prelude.{◌≡◌, true, ◌≤◌, length};
ghost use Rattle.codec.specs.Answer.{answer_of};
ghost use Rattle.codec.specs.Ids.{replica_of};
ghost use Rattle.codec.specs.Reply.{answer, after};
ghost use Rattle.layout.specs.Knowledge.{base};
ghost use Rattle.layout.specs.Decode.{decode};
ghost use Rattle.ticks.specs.Meaning.{highest};
ghost use Rattle.ticks.specs.Operations.{covers, own_alike, merge};
ghost use Rattle.replication.specs.OpenBatch.{first_id, last_id, batch_needed};
ghost use Rattle.replication.specs.Calls.{apply_reply};
ghost use Rattle.lookup.specs.Method.{Open};
ghost use Rattle.results.specs.MethodOpened.{limits_of, result_of};
ghost use Rattle.codec.specs.MethodEnded.{Ended};
ghost use Rattle.apply.specs.Method.{own_covered, applied_reply, BothValid, OwnAndLearned, Merges};

use codec::{Item, Refusal, Replica, Span};
use layout::Limits;
use lookup::View;
use store_open::{KnowledgePart, OpenBatch, OpenStore};

// the places of a store's own id, and of a batch's first and last id
const OWN: usize = 1;

const FIRST: usize = 1;

const LAST: usize = 25;

// the lowest and the highest item
const LOWEST: Item = Item {
    high: 0,
    middle: 0,
    low: 0,
};

const HIGHEST: Item = Item {
    high: u64::MAX,
    middle: u64::MAX,
    low: u64::MAX,
};

// the most records of a result
const RECORDS: usize = layout::LARGEST_RECORDS as usize;

// ---- what must be covered

// Does a store's knowledge k cover a batch's needed knowledge n in the batch's span.
fn covers_needed(
    k: &[u8],
    own: KnowledgePart,
    n: &[u8],
    needed: KnowledgePart,
    batch: &[u8],
) -> bool
    requires { (Open k.now own.view.r own.view.start) × (Open n.now needed.view.r needed.view.start)
        × (batch_needed ≤ length batch.now) × (first_id batch.now ≤ last_id batch.now) }
    ensures { result ≡ covers (decode k.now) (decode n.now)
        (first_id batch.now) (last_id batch.now) }
{
    let first = Item::from_bytes(&batch[FIRST..FIRST + 24]);
    let last = Item::from_bytes(&batch[LAST..LAST + 24]);
    cover::covers(k, own.view, n, needed.view, Span { first, last })
}

// Does a store's knowledge k know at least every tick of the store's own replica, by its id, that a batch's learned knowledge l knows. The store's own
// tick is alike in all ranges, so the largest one of l decides.
fn covers_own(k: &[u8], own: KnowledgePart, l: &[u8], learned: KnowledgePart, id: Replica) -> bool
    requires { (Open k.now own.view.r own.view.start) × (Open l.now learned.view.r learned.view.start)
        × (own_alike (replica_of id) (decode k.now) ≡ true) }
    ensures { result ≡ own_covered (replica_of id) (decode k.now) (decode l.now) }
{
    let mine = lookup::known_tick(k, own.view, LOWEST, id);
    let key = lookup::key_of(l, learned.view.r, id);
    let top = lookup_ranges::top_key(l, learned.view, key);
    top <= mine
}

// ---- the result

// Does a knowledge k know everything that a knowledge l knows.
fn covers_all(k: &[u8], v: View, l: &[u8], w: View) -> bool
    requires { (Open k.now v.r v.start) × (Open l.now w.r w.start) }
    ensures { result ≡ covers (decode k.now) (decode l.now) 0 highest }
{
    let all = Span {
        first: LOWEST,
        last: HIGHEST,
    };
    cover::covers(k, v, l, w, all)
}

// The knowledge of a store merged with a learned one: the store's own bytes where they cover that.
fn write_merged(
    k: &[u8],
    v: View,
    l: &[u8],
    w: View,
    limits: Limits,
    out: &mut [u8],
) -> Result<usize, Refusal>
    requires { OwnAndLearned limits k.now v l.now w }
    ensures { Ended (result_of limits (merge (decode k.now) (decode l.now))) out.old out.new (answer_of result) }
{
    if covers_all(k, v, l, w) {
        return results_copied::copy_whole(k, out);
    }
    results::merge_opened(k, v, l, w, limits, out)
}

// Of a store with an own id and the knowledge k, and a batch with the learned knowledge l at a place of it: the records' extent, the merged
// knowledge into its room, and then header and records around it. The records of each stand behind its knowledge.
fn write_applied(
    store: &[u8],
    k: &[u8],
    own: KnowledgePart,
    id: Replica,
    batch: &[u8],
    l: &[u8],
    learned: KnowledgePart,
    at: usize,
    limits: Limits,
    out: &mut [u8],
) -> Result<usize, Refusal>
    requires { Merges (limits_of limits) store.now k.now own (replica_of id) batch.now l.now learned at }
    ensures { Ended (applied_reply (limits_of limits) store.now batch.now) out.old out.new (answer_of result) }
{
    let mine = store_headers::STORE + own.length;
    let theirs = at + learned.length;
    let mut picks = [0usize; RECORDS];
    let e = records_join::join(store, mine, batch, theirs, &mut picks);
    let room = store_write::room_in_store(out.len(), limits.records, e);
    let part = &mut out[room.from..room.to];
    let merged = write_merged(k, own.view, l, learned.view, limits, part);
    store_write::close_store(out, id, merged, limits.records, store, batch, &picks, e)
}

// ---- the call

// Once store and batch are opened: NotCovered, or the result.
fn apply_open(
    store: &[u8],
    mine: OpenStore,
    batch: &[u8],
    theirs: OpenBatch,
    limits: Limits,
    out: &mut [u8],
) -> Result<usize, Refusal>
    requires { BothValid (limits_of limits) store.now mine batch.now theirs }
    ensures { Ended (apply_reply (limits_of limits) store.now batch.now)
        out.old out.new (answer_of result) }
{
    let end = store_headers::STORE + mine.own.length;
    let at = store_headers::BATCH + theirs.needed.length;
    let last = at + theirs.learned.length;
    let k = &store[store_headers::STORE..end];
    let n = &batch[store_headers::BATCH..at];
    let l = &batch[at..last];
    if !covers_needed(k, mine.own, n, theirs.needed, batch) {
        return Err(Refusal::NotCovered);
    }
    let id = Replica::from_bytes(&store[OWN..OWN + 16]);
    if !covers_own(k, mine.own, l, theirs.learned, id) {
        return Err(Refusal::NotCovered);
    }
    write_applied(
        store,
        k,
        mine.own,
        id,
        batch,
        l,
        theirs.learned,
        at,
        limits,
        out,
    )
}

// With limits of the caller's: StoreNotValid, then BatchNotValid.
fn apply_within(
    store: &[u8],
    batch: &[u8],
    out: &mut [u8],
    limits: Limits,
) -> Result<usize, Refusal>
    ensures { Ended (apply_reply (limits_of limits) store.now batch.now)
        out.old out.new (answer_of result) }
{
    let mine = store_open::open_store(store, limits)?;
    let theirs = store_open::open_batch(batch, limits)?;
    apply_open(store, mine, batch, theirs, limits, out)
}

// Writes the store with a batch applied: for each item the winner of both sides' records, and the knowledge merged with learned.
pub fn apply(store: &[u8], batch: &[u8], out: &mut [u8]) -> Result<usize, Refusal>
    ensures value { answer_of result ≡ answer (apply_reply base store.now batch.now) (length out.old) }
    ensures out_after { out.new ≡ after (apply_reply base store.now batch.now) out.old }
{
    apply_within(store, batch, out, layout::LIMITS)
}
