// The parts of a knowledge that are lists: the replica map, the clock vectors, the ranges. Every public function holds for every
// input of any length: what stands there, or the first fault.
//
// A clock vector is tested as a whole; only one with a fault is read field by field.
#![tactic(auto)]

ghost use Rattle.std.specs.Prelude.{◌≡◌, true, ◌+◌, ◌-◌, ◌*◌, ◌≤◌, length, nat_le};
ghost use Rattle.codec.specs.Ids.{item_of, replica_of};
ghost use Rattle.layout.specs.Got.{Num, got_of};
ghost use Rattle.layout.specs.Knowledge.{basic};
ghost use Rattle.layout.specs.Permitted.{largest_replicas};
ghost use Rattle.layout.specs.Read.{repeat, among, replica_id, element, vector, range};
ghost use Rattle.layout.specs.Parse.{replica_map, vector_count, vector_list, range_list};
ghost use Rattle.check_parts.specs.Method.{lowest, ranged, ranges_from};

use codec::{Item, Refusal, Replica};
use layout::Read;

// there is a mark for each key that a clock vector may have
const MARKS: usize = layout::LARGEST_REPLICAS as usize;

// ---- replica ids

// Is an id one of the k ids from a place on.
fn seen_id(s: &[u8], start: usize, k: usize, id: Replica) -> bool
    requires { start + 16 * k ≤ length s.now }
    ensures { result ≡ among s.now 16 16 start k (replica_of id) }
{
    for i in 0..k {
        let at = start + 16 * i;
        if leaves::is_replica(&s[at..at + 16], id) {
            return true;
        }
    }
    false
}

// The id at a place, with k ids before it from start on.
fn replica_id(s: &[u8], start: usize, k: usize, at: usize) -> Result<Read, Refusal>
    requires { (start + 16 * k ≤ length s.now) × (at ≤ length s.now) }
    ensures { got_of result ≡ replica_id basic.judge s.now start k at }
{
    if s.len() - at < 16 {
        return Err(Refusal::EndsInside);
    }
    if seen_id(s, start, k, Replica::from_bytes(&s[at..at + 16])) {
        return Err(Refusal::ReplicaTwice);
    }
    Ok(Read {
        number: k + 1,
        next: at + 16,
    })
}

// The n ids from start on.
fn replica_ids(s: &[u8], n: usize, start: usize) -> Result<Read, Refusal>
    requires { start ≤ length s.now }
    ensures { got_of result ≡ repeat (replica_id basic.judge s.now start) n 0 start }
{
    let mut x = Read {
        number: 0,
        next: start,
    };
    for k in 0..n {
        x = replica_id(s, start, k, x.next)?;
    }
    Ok(x)
}

// The bytes up to the last replica id, with the most replicas: r.
pub fn replica_map(s: &[u8], most: u32) -> Result<Read, Refusal>
    ensures { got_of result ≡ replica_map most basic.judge s.now }
{
    let r = check_fields::in_limits(check_fields::count_of_replicas(s), 0, most as usize)?;
    replica_ids(s, r.number, r.next)
}

// ---- clock vectors

// The fields up to the count v, with the most ranges.
pub fn vector_count(s: &[u8], most: u32, at: usize) -> Result<Read, Refusal>
    ensures { got_of result ≡ vector_count most s.now at }
{
    check_fields::in_limits(check_fields::count_of_vectors(s, at), 1, most as usize + 1)
}

// Are the n elements of a clock vector without a fault. What is wrong with one of them is gathered with no branch on it.
fn elements_stand(s: &[u8], r: usize, n: usize, start: usize) -> bool
    requires { (r ≤ largest_replicas) × (start + 12 * n ≤ length s.now) }
    ensures { result ≡ true → repeat (element s.now r start) n 0 start ≡ Num n (start + 12 * n) }
{
    let mut seen = [false; MARKS];
    let mut twice = false;
    let mut late = false;
    for k in 0..n {
        let at = start + 12 * k;
        let key = leaves::first::<4>(&s[at..at + 4]) as usize;
        if r <= key {
            return false;
        }
        twice |= seen[key];
        late |= s[at + 4] >= 128;
        seen[key] = true;
    }
    !twice && !late
}

// A clock vector of a knowledge of r replicas: the count of its elements.
fn next_vector(s: &[u8], r: usize, at: usize) -> Result<Read, Refusal>
    ensures { got_of result ≡ vector s.now r 0 at }
{
    if MARKS < r || codec::beyond(s.len(), at, 8) {
        return check_fields::vector_by_fields(s, r, at);
    }
    let field = leaves::first::<4>(&s[at..at + 4]);
    let n = leaves::first::<4>(&s[at + 4..at + 8]) as usize;
    let start = at + 8;
    if field == 1 && n <= r && 12 * n <= s.len() - start && elements_stand(s, r, n, start) {
        return Ok(Read {
            number: n,
            next: start + 12 * n,
        });
    }
    check_fields::vector_by_fields(s, r, at)
}

// The vectors after the first, which ends at start: the count of their elements.
fn more_vectors(s: &[u8], r: usize, v: usize, start: usize) -> Result<Read, Refusal>
    ensures { got_of result ≡ repeat (vector s.now r) (v - 1) 0 start }
{
    let mut x = Read {
        number: 0,
        next: start,
    };
    for _ in 1..v {
        let n = next_vector(s, r, x.next)?;
        x = Read {
            number: x.number + n.number,
            next: n.next,
        };
    }
    Ok(x)
}

// The v clock vectors of a knowledge of r replicas: e.
pub fn vector_list(s: &[u8], r: usize, v: usize, at: usize) -> Result<Read, Refusal>
    ensures { got_of result ≡ vector_list s.now r v at }
{
    let first = check_fields::first_vector(s, at)?;
    more_vectors(s, r, v, first.next)
}

// ---- ranges

// Is a bound above the one before it, where there is one.
fn is_above(bound: Item, before: Option<Item>) -> bool
    ensures { result ≡ nat_le (lowest before) (item_of bound) }
{
    match before {
        Some(b) => b < bound,
        None => true,
    }
}

// The range at a place: its bound, which must be above the bound of the range before, where there is one.
fn range(s: &[u8], v: usize, before: Option<Item>, at: usize) -> Result<Item, Refusal>
    requires { at ≤ length s.now }
    ensures { ranged (at + 28) result ≡ range s.now v (lowest before) at }
{
    let left = s.len() - at;
    if left < 24 {
        return Err(Refusal::EndsInside);
    }
    let bound = Item::from_bytes(&s[at..at + 24]);
    if !is_above(bound, before) {
        return Err(Refusal::BoundNotAbove);
    }
    if left < 28 {
        return Err(Refusal::EndsInside);
    }
    if v <= leaves::first::<4>(&s[at + 24..at + 28]) as usize {
        return Err(Refusal::WrongIndex);
    }
    Ok(bound)
}

// The g ranges from start on.
fn ranges(s: &[u8], v: usize, g: usize, start: usize) -> Result<Read, Refusal>
    requires { start ≤ length s.now }
    ensures { got_of result ≡ ranges_from s.now v g start }
{
    let mut before = None;
    for k in 0..g {
        before = Some(range(s, v, before, start + 28 * k)?);
    }
    Ok(Read {
        number: g,
        next: start + 28 * g,
    })
}

// The bytes up to the end of the ranges, with the most ranges: g.
pub fn range_list(s: &[u8], most: u32, v: usize, at: usize) -> Result<Read, Refusal>
    ensures { got_of result ≡ range_list most s.now v at }
{
    let g = check_fields::in_limits(check_fields::count_of_ranges(s, at), 1, most as usize)?;
    ranges(s, v, g.number, g.next)
}
