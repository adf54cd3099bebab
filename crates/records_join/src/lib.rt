// Two tables of records joined, the records chosen copied, and a record written.
//
// A table is what a walker goes through from a place of some bytes on. The join is decided once: a first pass finds the records of the
// result, stores their addresses, and counts them and their bytes; a second pass copies them. An address is a place of the first bytes
// or, from their length on, a place of the second. Every public function is total: what has no room is not written.
#![tactic(auto)]

ghost use Rattle.std.specs.Prelude.{◌≡◌, true, [], ◌+◌, ◌^◌, ◌≤◌, ◌<◌, length, take, set, MatchOption};
ghost use Rattle.codec.specs.Part.{placed};
ghost use Rattle.replication.specs.Formats.{kind_of, put_rec};
ghost use Rattle.replication.specs.Queries.{length_at};
ghost use Rattle.records_join.specs.MethodJoin.{at_address, size_from, join_at, Steps, fronted, run_part, copied};
ghost use Rattle.codec.specs.MethodWritten.{Wrote};
ghost use Rattle.records_join.specs.MethodWritten.{record_of, put_version, put_versions};

use codec::{Item, Replica};

// the length of a record of either kind
pub const RECORD_LENGTH: usize = 89;

// The words of a content tag.
#[derive(Clone, Copy)]
pub struct TagWords {
    pub high: u64,
    pub low: u64,
}

// A change or create version, but for its item.
#[derive(Clone, Copy)]
pub struct VersionWords {
    pub replica: Replica,
    pub tick: u64,
}

// A record. A tombstone is deleted, and its tag is zeros.
#[derive(Clone, Copy)]
pub struct RecordWords {
    pub item: Item,
    pub change: VersionWords,
    pub create: VersionWords,
    pub deleted: bool,
    pub tag: TagWords,
}

// How many records there are, and how many bytes they have together.
#[derive(Clone, Copy)]
pub struct Extent {
    pub count: usize,
    pub length: usize,
}

// A step of the join: the address chosen next, the length of the record there, and the places behind what is passed.
#[derive(Clone, Copy)]
struct Step {
    chosen: usize,
    size: usize,
    first: usize,
    second: usize,
}

// ---- the join

// The step where both tables have a record: the one of the smaller item, and of one item the winner.
fn merge_step_both(s: &[u8], a: usize, m: usize, t: &[u8], b: usize, n: usize) -> Step
    requires { (m ≡ length_at s.now a) × (n ≡ length_at t.now b) × (0 < m) × (0 < n)
        × (a + m ≤ length s.now) × (b + n ≤ length t.now) }
    ensures { Steps s.now a t.now b result }
{
    let x = records::item_of(s, a);
    let y = records::item_of(t, b);
    if x < y {
        return Step {
            chosen: a,
            size: m,
            first: a + m,
            second: b,
        };
    }
    if y < x {
        return Step {
            chosen: s.len() + b,
            size: n,
            first: a,
            second: b + n,
        };
    }
    if records::wins(s, a, t, b) {
        return Step {
            chosen: s.len() + b,
            size: n,
            first: a + m,
            second: b + n,
        };
    }
    Step {
        chosen: a,
        size: m,
        first: a + m,
        second: b + n,
    }
}

// The next step, also where one table has ended; none at the end of both.
fn merge_step(s: &[u8], a: usize, t: &[u8], b: usize) -> Option<Step>
    ensures { MatchOption result (join_at s.now a t.now b ≡ []) (λ r. Steps s.now a t.now b r) }
{
    let m = records::length_at(s, a);
    let n = records::length_at(t, b);
    if n == 0 {
        if m == 0 {
            return None;
        }
        return Some(Step {
            chosen: a,
            size: m,
            first: a + m,
            second: b,
        });
    }
    if m == 0 {
        return Some(Step {
            chosen: s.len() + b,
            size: n,
            first: a,
            second: b + n,
        });
    }
    Some(merge_step_both(s, a, m, t, b, n))
}

// A number of a list, where it has the place.
pub fn put(l: &mut [usize], i: usize, x: usize)
    ensures { l.new ≡ set l.old i x }
{
    if i < l.len() {
        l[i] = x;
    }
}

// The addresses of the records of the joined tables, into the front of `chosen`, as many as it has room for; how many records
// there are, and how many bytes they have.
pub fn join(s: &[u8], a: usize, t: &[u8], b: usize, chosen: &mut [usize]) -> Extent
    ensures count_value { (result.count ≡ length (join_at s.now a t.now b))
        × (result.length ≡ size_from s.now t.now (join_at s.now a t.now b)) }
    ensures chosen_after { chosen.new ≡ fronted chosen.old (join_at s.now a t.now b) }
{
    let mut count: usize = 0;
    let mut size: usize = 0;
    let mut x = a;
    let mut y = b;
    while let Some(r) = merge_step(s, x, t, y) {
        put(chosen, count, r.chosen);
        count += 1;
        size += r.size;
        x = r.first;
        y = r.second;
    }
    Extent {
        count,
        length: size,
    }
}

// ---- the copy

// The length of the record at an address, 0 where none stands there.
fn length_from(s: &[u8], t: &[u8], x: usize) -> usize
    ensures { result ≡ at_address length_at s.now t.now x }
{
    if x < s.len() {
        return records::length_at(s, x);
    }
    records::length_at(t, x - s.len())
}

// Whether m bytes from an address x on end where the address y begins, both in the first bytes, which are n, or both in the second.
fn goes_on(n: usize, x: usize, m: usize, y: usize) -> bool
    ensures { result ≡ true → (y ≡ x + m) × (x < n → y < n) }
{
    if y < x {
        return false;
    }
    if y - x != m {
        return false;
    }
    if x < n {
        return y < n;
    }
    true
}

// The m bytes from an address on, into an output from a place on.
fn copy_run(s: &[u8], t: &[u8], x: usize, m: usize, out: &mut [u8], to: usize)
    ensures { out.new ≡ placed out.old to (run_part s.now t.now x m) }
{
    if x < s.len() {
        codec::copy_part(s, x, m, out, to);
        return;
    }
    codec::copy_part(t, x - s.len(), m, out, to);
}

// The records at addresses, neighbours at once: m bytes from the address x on are still to be written, from the place p on.
fn copy_all(s: &[u8], t: &[u8], chosen: &[usize], out: &mut [u8], at: usize)
    requires { at ≤ length out.old }
    ensures { out.new ≡ copied s.now t.now out.old at chosen.now }
{
    if chosen.is_empty() {
        return;
    }
    let mut p = at;
    let mut x = chosen[0];
    let mut m: usize = 0;
    for y in chosen {
        let y = *y;
        let k = length_from(s, t, y);
        if codec::beyond(out.len(), p + m, k) {
            break;
        }
        if goes_on(s.len(), x, m, y) {
            m += k;
        } else {
            copy_run(s, t, x, m, out, p);
            p += m;
            x = y;
            m = k;
        }
    }
    copy_run(s, t, x, m, out, p);
}

// The records at the first n addresses, one after the other from a place of an output on; one that has no room is not written.
pub fn copy_picked(s: &[u8], t: &[u8], chosen: &[usize], n: usize, out: &mut [u8], at: usize)
    ensures { out.new
        ≡ copied s.now t.now out.old at (take n chosen.now) }
{
    if out.len() < at {
        return;
    }
    let end = n.min(chosen.len());
    copy_all(s, t, &chosen[..end], out, at);
}

// ---- a record written

impl VersionWords {
    // A version but for its item.
    fn write(self, out: &mut [u8], at: usize)
        requires { at + 24 < 2 ^ 64 }
        ensures { Wrote out.old at (put_version self) out.new (at + 24) }
    {
        leaves::write_replica(out, at, self.replica);
        codec::write::<8>(out, at + 16, self.tick);
    }
}

impl RecordWords {
    // The change version and the create version.
    fn write_versions(self, out: &mut [u8], at: usize)
        requires { at + 48 < 2 ^ 64 }
        ensures { Wrote out.old at (put_versions self.change self.create) out.new (at + 48) }
    {
        self.change.write(out, at);
        self.create.write(out, at + 24);
    }

    // The kind.
    fn kind(self) -> u64
        ensures { result ≡ kind_of (record_of self).content }
    {
        if self.deleted {
            records::TOMBSTONE
        } else {
            records::LIVE
        }
    }

    // The bytes, from a place of an output on.
    pub fn write(self, out: &mut [u8], at: usize)
        ensures { out.new ≡ placed out.old at (put_rec (record_of self) []) }
    {
        if codec::beyond(out.len(), at, RECORD_LENGTH) {
            return;
        }
        let kind = self.kind();
        codec::write::<1>(out, at, kind);
        leaves::write_item(out, at + 1, self.item);
        self.write_versions(out, at + 25);
        codec::write::<8>(out, at + 73, self.tag.high);
        codec::write::<8>(out, at + 81, self.tag.low);
    }
}
