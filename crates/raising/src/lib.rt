// The test whether a table can be filled, and its cells, for the filling of tables.
//
// Every public function is total: where there are not the bounds of all rows, no cell is raised. The tick of row k and column c is word
// STRIDE * k + c of `t`.
#![tactic(auto)]

ghost use Rattle.std.specs.Prelude.{◌≡◌, ◌+◌, ◌*◌, ◌^◌, ◌≤◌, ◌<◌, length, get_or};
ghost use Rattle.lookup.specs.Method.{elements_here};
ghost use Rattle.sampling.specs.MethodCells.{raised_in, raised_by, filled};
ghost use Rattle.sampling.specs.MethodTables.{fits, filled_in};

use codec::Item;
use layout::ReplicaKey;
use lookup::View;

// ---- the test at the start

// Are the ids and the ranges of a knowledge all in its bytes, and is there room for m columns and the rows up to n, in lists of the
// given lengths.
pub fn fits(s: &[u8], v: View, m: usize, n: usize, ids: usize, bounds: usize, t: usize) -> bool
    ensures { result ≡ fits s.now v.r v.start m n ids bounds t }
{
    // early returns: with one chain of `&&` the goal `returns-else-n-bounds` stayed open, the value of all tests but the last
    if layout::LARGEST_REPLICAS < v.r {
        return false;
    }
    if s.len() < layout::IDS_PLACE + 16 * (v.r as usize) {
        return false;
    }
    if codec::beyond(s.len(), v.start.next, 28 * (v.start.left as usize)) {
        return false;
    }
    if tables::STRIDE < m {
        return false;
    }
    if tables::ROWS <= n {
        return false;
    }
    if ids < 2 * m {
        return false;
    }
    if bounds < 3 * (n + 1) {
        return false;
    }
    tables::STRIDE * (n + 1) <= t
}

// ---- cells

// The column of a key, 0 where it has none.
fn column_of(keys: &[u32], key: ReplicaKey) -> ReplicaKey
    ensures { result.0 ≡ get_or keys.now key.0 0 }
{
    ReplicaKey(keys.get(key.0 as usize).copied().unwrap_or(0))
}

// Raises the tick in a row, in the column of a key, to the larger, where there is such a cell.
fn raise_cell(keys: &[u32], t: &mut [u64], k: u32, key: ReplicaKey, tick: u64)
    ensures { t.new ≡ raised_in keys.now t.old k key.0 tick }
{
    let column = column_of(keys, key);
    let i = tables::STRIDE * (k as usize) + column.0 as usize;
    if i < t.len() {
        t[i] = codec::max(t[i], tick);
    }
}

// Raises row k from the clock vector at a place: each element the cell of its key's column.
fn raise_row(s: &[u8], vector: usize, keys: &[u32], t: &mut [u64], k: u32)
    ensures { t.new ≡ raised_by keys.now (elements_here s.now vector) t.old k }
{
    let n = lookup::elements_at(s, vector);
    for i in 0..n {
        let at = vector + 8 + 12 * i;
        let key = ReplicaKey(leaves::first::<4>(&s[at..at + 4]) as u32);
        let tick = leaves::first::<8>(&s[at + 4..at + 4 + 8]);
        raise_cell(keys, t, k, key, tick);
    }
}

// Raises the rows from the first to the last to what a knowledge knows at their bounds.
fn fill_rows(s: &[u8], v: View, keys: &[u32], bounds: &[u64], from: u32, top: u32, t: &mut [u64])
    requires { (3 * (top + 1) ≤ length bounds.now) × (top + 1 < 2 ^ 32) }
    ensures { t.new ≡ filled s.now v.r v.start keys.now bounds.now from top t.old }
{
    let mut c = v.start;
    for k in from..top + 1 {
        let i = 3 * (k as usize);
        let bound = Item {
            high: bounds[i],
            middle: bounds[i + 1],
            low: bounds[i + 2],
        };
        c = lookup::advance(s, v.r, c, bound);
        raise_row(s, c.vector, keys, t, k);
    }
}

// Raises the rows from the first to the last to what a knowledge knows at their bounds, where there is a bound for each.
pub fn fill(s: &[u8], v: View, keys: &[u32], bounds: &[u64], from: u32, top: u32, t: &mut [u64])
    ensures { t.new ≡ filled_in s.now v.r v.start keys.now bounds.now from top t.old }
{
    if (top as usize) < tables::ROWS && 3 * (top as usize + 1) <= bounds.len() {
        fill_rows(s, v, keys, bounds, from, top, t);
    }
}
