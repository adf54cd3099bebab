// Tables of known ticks, filled from the bytes of knowledges whose counts and first cursors the caller has.
//
// Every public function is total: where the ids or the ranges are not all in the bytes, or where there is no room, nothing is filled,
// and there are no columns and no rows. From bytes that the check accepts, in scratch that has room and is clear, the table samples the
// ticks of the operation. The rows are put by `stopping`, and the cells raised by `raising`; the definitions of the steps and the laws about
// them stand in `sampling`.
//
// Column c of a table has its id in words 2c and 2c + 1 of `ids`, row k its bound in words 3k, 3k + 1 and 3k + 2 of `bounds`,
// the highest word first; the tick of row k and column c is word STRIDE * k + c of `t`. The order of a replica map is never used.
#![tactic(auto)]

ghost use Rattle.std.specs.Prelude.{◌≡◌, ◌+◌, ◌*◌, ◌^◌, ◌≤◌, ◌<◌, length, MatchOption};
ghost use Rattle.codec.specs.Words.{words2};
ghost use Rattle.layout.specs.MethodPlaces.{ids_place};
ghost use Rattle.tables.specs.MethodWords.{stride};
ghost use Rattle.sampling.specs.MethodColumns.{column_of, join_of, joined, columns_of, mapped};
ghost use Rattle.sampling.specs.MethodCells.{column_set};
ghost use Rattle.sampling.specs.MethodTables.{Fits, table_of, one_filled, one_table, two_filled, two_table, span_table, raised_table};

use codec::{Replica, Span};
use layout::ReplicaKey;
use lookup::View;
use sampling::Filled;

// the most keys of a replica map
const KEYS: usize = layout::LARGEST_REPLICAS as usize;

const NOTHING: Filled = Filled {
    columns: 0,
    rows: 0,
};

// The column of an id, and how many columns there are then.
#[derive(Clone, Copy)]
struct Joined {
    column: ReplicaKey,
    count: u32,
}

// ---- columns

// The column of an id among the first n.
fn find_id(ids: &[u64], n: u32, p: Replica) -> Option<ReplicaKey>
    requires { 2 * n ≤ length ids.now }
    ensures { MatchOption result (column_of ids.now n (words2 p.high p.low) ≡ n)
        (λ c. (c.0 ≡ column_of ids.now n (words2 p.high p.low)) × (c.0 < n)) }
{
    for c in 0..n {
        let column = ReplicaKey(c);
        let i = 2 * (column.0 as usize);
        let id = Replica {
            high: ids[i],
            low: ids[i + 1],
        };
        if id == p {
            return Some(column);
        }
    }
    None
}

// The column of an id among the first n of m, or a new one after the m.
fn join_id(ids: &mut [u64], n: u32, m: u32, p: Replica) -> Joined
    requires { (n ≤ m) × (2 * m + 2 ≤ length ids.old) × (m + 1 < 2 ^ 32) }
    ensures { (join_of ids.new result.column.0 result.count ≡ joined ids.old n m p.high p.low)
        × (result.column.0 ≤ m) × (m ≤ result.count) × (result.count ≤ m + 1) × (length ids.new ≡ length ids.old) }
{
    match find_id(ids, n, p) {
        Some(column) => Joined { column, count: m },
        None => {
            let i = 2 * (m as usize);
            ids[i] = p.high;
            ids[i + 1] = p.low;
            Joined {
                column: ReplicaKey(m),
                count: m + 1,
            }
        }
    }
}

// The columns of the r ids of a replica map: each that of the same id among the first n columns, which may have the ids of
// another map, or else a new one. Gives how many columns there are then.
fn add_ids(s: &[u8], r: u32, ids: &mut [u64], n: u32, keys: &mut [u32]) -> u32
    requires { (ids_place + 16 * r ≤ length s.now) × (r ≤ length keys.old) × (2 * (n + r) ≤ length ids.old) × (n + r < 2 ^ 32) }
    ensures { (columns_of ids.new result keys.new ≡ mapped s.now r ids.old n keys.old)
        × (result ≤ n + r) × (length ids.new ≡ length ids.old) × (length keys.new ≡ length keys.old) }
{
    let mut m = n;
    for k in 0..r {
        let key = ReplicaKey(k);
        let at = layout::IDS_PLACE + 16 * (key.0 as usize);
        let joined = join_id(ids, n, m, Replica::from_bytes(&s[at..at + 16]));
        keys[key.0 as usize] = joined.column.0;
        m = joined.count;
    }
    m
}

// ---- the tick of one replica

// Sets the ticks of a column in the rows from the first to the last.
fn raise_column(t: &mut [u64], c: ReplicaKey, from: u32, top: u32, tick: u64)
    requires { (c.0 < stride) × (stride * (top + 1) ≤ length t.old) × (top + 1 < 2 ^ 32) }
    ensures { t.new ≡ column_set c.0 tick from top t.old }
{
    for k in from..top + 1 {
        t[tables::STRIDE * (k as usize) + c.0 as usize] = tick;
    }
}

// ---- tables

// The table of what one knowledge knows, where all is in the bytes and there is room.
fn filled_one(s: &[u8], v: View, ids: &mut [u64], bounds: &mut [u64], t: &mut [u64]) -> Filled
    requires { Fits s.now v.r v.start v.r (v.start.left + 1) (length ids.old) (length bounds.old) (length t.old) }
    ensures { (table_of ids.new bounds.new t.new result
        ≡ one_filled s.now v.r v.start ids.old bounds.old t.old)
        × (result.columns ≤ v.r) × (result.rows ≤ v.start.left + 1) × (length ids.new ≡ length ids.old)
        × (length t.new ≡ length t.old) }
{
    let mut keys = [0u32; KEYS];
    let columns = add_ids(s, v.r, ids, 0, &mut keys);
    let rows = stopping::all_stops(s, v.start, s, 0, v.start.next, bounds);
    raising::fill(s, v, &keys, bounds, 1, rows, t);
    Filled { columns, rows }
}

// The table of the larger of what two knowledges know, where all is in the bytes and there is room.
fn filled_two(
    s: &[u8],
    v: View,
    other: &[u8],
    w: View,
    ids: &mut [u64],
    bounds: &mut [u64],
    t: &mut [u64],
) -> Filled
    requires { Fits s.now v.r v.start (v.r + w.r) (v.start.left + w.start.left + 1) (length ids.old) (length bounds.old) (length t.old)
        × Fits other.now w.r w.start (v.r + w.r) (v.start.left + w.start.left + 1) (length ids.old) (length bounds.old) (length t.old) }
    ensures { table_of ids.new bounds.new t.new result
        ≡ two_filled s.now v.r v.start other.now w.r w.start ids.old bounds.old t.old }
{
    let mut keys = [0u32; KEYS];
    let mut others = [0u32; KEYS];
    let first = add_ids(s, v.r, ids, 0, &mut keys);
    let columns = add_ids(other, w.r, ids, first, &mut others);
    let rows = stopping::all_stops(s, v.start, other, w.start.left, w.start.next, bounds);
    raising::fill(s, v, &keys, bounds, 1, rows, t);
    raising::fill(other, w, &others, bounds, 1, rows, t);
    Filled { columns, rows }
}

// The table of what one knowledge knows.
pub fn fill_one(s: &[u8], v: View, ids: &mut [u64], bounds: &mut [u64], t: &mut [u64]) -> Filled
    ensures { table_of ids.new bounds.new t.new result
        ≡ one_table s.now v.r v.start ids.old bounds.old t.old }
{
    let n = v.start.left as usize + 1;
    if raising::fits(s, v, v.r as usize, n, ids.len(), bounds.len(), t.len()) {
        return filled_one(s, v, ids, bounds, t);
    }
    NOTHING
}

// The table of what one knowledge knows, with the tick of a replica set in every row.
pub fn fill_raised(
    s: &[u8],
    v: View,
    p: Replica,
    tick: u64,
    ids: &mut [u64],
    bounds: &mut [u64],
    t: &mut [u64],
) -> Filled
    ensures { table_of ids.new bounds.new t.new result
        ≡ raised_table s.now v.r v.start p.high p.low tick ids.old bounds.old t.old }
{
    let m = v.r as usize + 1;
    let n = v.start.left as usize + 1;
    if raising::fits(s, v, m, n, ids.len(), bounds.len(), t.len()) {
        let q = filled_one(s, v, ids, bounds, t);
        let own = join_id(ids, q.columns, q.columns, p);
        raise_column(t, own.column, 1, q.rows, tick);
        return Filled {
            columns: own.count,
            rows: q.rows,
        };
    }
    NOTHING
}

// The table of what one knowledge knows inside a span.
pub fn fill_span(
    s: &[u8],
    v: View,
    span: Span,
    ids: &mut [u64],
    bounds: &mut [u64],
    t: &mut [u64],
) -> Filled
    ensures { table_of ids.new bounds.new t.new result
        ≡ span_table s.now v.r v.start span.first span.last ids.old bounds.old t.old }
{
    let n = v.start.left as usize + 3;
    if raising::fits(s, v, v.r as usize, n, ids.len(), bounds.len(), t.len()) {
        let mut keys = [0u32; KEYS];
        let columns = add_ids(s, v.r, ids, 0, &mut keys);
        let rows = stopping::span_stops(s, v.start, span, bounds);
        raising::fill(s, v, &keys, bounds, rows.from, rows.top, t);
        return Filled {
            columns,
            rows: rows.rows,
        };
    }
    NOTHING
}

// The table of the larger of what two knowledges know.
pub fn fill_two(
    s: &[u8],
    v: View,
    other: &[u8],
    w: View,
    ids: &mut [u64],
    bounds: &mut [u64],
    t: &mut [u64],
) -> Filled
    ensures { table_of ids.new bounds.new t.new result
        ≡ two_table s.now v.r v.start other.now w.r w.start ids.old bounds.old t.old }
{
    let m = v.r as usize + w.r as usize;
    let n = v.start.left as usize + w.start.left as usize + 1;
    if raising::fits(s, v, m, n, ids.len(), bounds.len(), t.len()) {
        if raising::fits(other, w, m, n, ids.len(), bounds.len(), t.len()) {
            return filled_two(s, v, other, w, ids, bounds, t);
        }
    }
    NOTHING
}
