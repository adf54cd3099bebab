// What a call does with a table of known ticks once it is filled: it plans what is written, judges that by the limits, and writes it.
//
// Every public function is total. A call ends with `conclude`, which has lists of its own for the plan.
#![tactic(auto)]

ghost use Rattle.std.specs.Prelude.{◌≡◌, ◌≤◌};
ghost use Rattle.layout.specs.Permitted.{rules_within};
ghost use Rattle.tables.specs.MethodWords.{most_rows};
ghost use Rattle.codec.specs.Answer.{answer_of};
ghost use Rattle.codec.specs.MethodEnded.{end_of, answer_under};
ghost use Rattle.preparing.specs.MethodPrepared.{judged, plan_of, planned, finished, blank_end, concluded};

use codec::{Numbered, Refusal};
use layout::Limits;
use sampling::Filled;
use tables::Sizes;

// Rows of scratch for a plan whose rows are few; the others take `tables::ROWS`. The plan of a table of `n` rows takes STRIDE, n and n numbers.
pub const FEW: usize = 12;

// The sizes of what is planned, where they are within the limits: each limit is clamped to 1 to its largest.
#[tactic(auto, unfolding(crate::specs::MethodPrepared::judged))]
fn judge(z: Sizes, limits: Limits) -> Result<Sizes, Refusal>
    ensures { result ≡ judged (rules_within limits.replicas limits.ranges).limits z }
{
    if codec::clamp(limits.replicas, layout::LARGEST_REPLICAS) < z.replicas {
        return Err(Refusal::TooManyReplicas);
    }
    if codec::clamp(limits.ranges, layout::LARGEST_RANGES) < z.ranges {
        return Err(Refusal::TooManyRanges);
    }
    Ok(z)
}

// Plans what is written for a table, and judges it by the limits: each is clamped to 1 to its largest. A table that is not filled, or
// lists without room for its plan, get sizes of 0.
#[inline(always)]
pub fn prepare(
    q: Filled,
    limits: Limits,
    ids: &[u64],
    t: &[u64],
    cols: &mut [u32],
    firsts: &mut [u32],
    numbers: &mut [u32],
) -> Result<Sizes, Refusal>
    ensures { plan_of cols.new firsts.new numbers.new result
        ≡ planned (rules_within limits.replicas limits.ranges).limits q ids.now t.now
        cols.old firsts.old numbers.old }
{
    let z = plan::plan(ids, t, q.columns, q.rows, cols, firsts, numbers);
    judge(z, limits)
}

// How a call ends: with an error, of whatever number, or with what was made ready of so many rows, which is written where the buffer has
// room. Gives how many bytes were written.
#[inline(always)]
pub fn finish<E: Numbered>(
    out: &mut [u8],
    p: Result<Sizes, E>,
    rows: u32,
    ids: &[u64],
    bounds: &[u64],
    t: &[u64],
    cols: &[u32],
    firsts: &[u32],
    numbers: &[u32],
) -> Result<usize, E>
    ensures { end_of out.new (answer_under E.number_of result) ≡ finished E.number_of out.old ids.now bounds.now t.now
        cols.now firsts.now numbers.now rows p }
{
    let z = p?;
    let n = writer::length(z);
    if out.len() < n {
        return Err(E::from(Refusal::BufferTooShort));
    }
    writer::write(out, 0, z, ids, bounds, t, rows, cols, firsts, numbers);
    Ok(n)
}

// Plans what is written for a table, judges it by the limits, and writes it where the buffer has room. The plan is in lists for the
// numbers of N rows. A table that is not filled, or that has more rows, gets sizes of 0.
fn conclude_in<const N: usize>(
    q: Filled,
    limits: Limits,
    out: &mut [u8],
    ids: &[u64],
    bounds: &[u64],
    t: &[u64],
) -> Result<usize, Refusal>
    requires { N ≤ most_rows }
    ensures { end_of out.new (answer_of result) ≡ blank_end N (rules_within limits.replicas limits.ranges).limits q out.old
        ids.now bounds.now t.now }
{
    let mut cols = [0u32; tables::STRIDE];
    let mut firsts = [0u32; N];
    let mut numbers = [0u32; N];
    let p = prepare(q, limits, ids, t, &mut cols, &mut firsts, &mut numbers);
    finish(out, p, q.rows, ids, bounds, t, &cols, &firsts, &numbers)
}

// Plans what is written for a table, judges it by the limits, and writes it where the buffer has room. Gives how many bytes were written.
pub fn conclude(
    q: Filled,
    limits: Limits,
    out: &mut [u8],
    ids: &[u64],
    bounds: &[u64],
    t: &[u64],
) -> Result<usize, Refusal>
    ensures { end_of out.new (answer_of result) ≡ concluded (rules_within limits.replicas limits.ranges).limits q out.old
        ids.now bounds.now t.now }
{
    if q.rows < FEW as u32 {
        return conclude_in::<FEW>(q, limits, out, ids, bounds, t);
    }
    conclude_in::<{ tables::ROWS }>(q, limits, out, ids, bounds, t)
}
