// The one writer: the bytes of a planned knowledge, into a lent buffer at a place. Nothing is decided here; the plan has all counts.
//
// Every piece is written where the one before it ended. An element is written from its `ReplicaKey` and tick, a range from its
// bound and `VectorIndex`. Every public function is total: a number that a list lacks is 0, and what has no room is not written.
#![tactic(auto)]

ghost use Rattle.std.specs.Prelude.{◌≡◌, [], ◌∷◌, ◌+◌, ◌*◌, ◌^◌, ◌≤◌, ◌<◌, length, slice_index};
ghost use Rattle.codec.specs.Part.{placed, bytes};
ghost use Rattle.layout.specs.Knowledge.{put_fields, opening, before_vectors, before_ranges, closing};
ghost use Rattle.tables.specs.MethodWords.{cell};
ghost use Rattle.tables.specs.MethodPlan.{length_of, elements_from};
ghost use Rattle.tables.specs.MethodPieces.{laid, id_pieces, element_pieces, vector_pieces, vectors_pieces, range_pieces, ranges_pieces, page_pieces};
ghost use Rattle.writer.specs.Method.{Wrote, elements_of, listed};

use layout::{ReplicaKey, VectorIndex};
use tables::Sizes;

// The bytes that the sizes come to.
pub fn length(z: Sizes) -> usize
    ensures { result ≡ length_of z }
{
    77 + 16 * (z.replicas as usize)
        + 8 * (z.vectors as usize)
        + 12 * (z.elements as usize)
        + 28 * (z.ranges as usize)
}

// ---- numbers of the lists

// The first numbers of a list, 0 past its end.
// not a slice of that length: `write` promises something for a list that is shorter, too
#[derive(Clone, Copy)]
struct Numbers<'a> {
    list: &'a [u32],
    count: u32,
}

impl Numbers<'_> {
    fn at(self, i: u32) -> u32
        ensures { result ≡ slice_index self.entry.list.now i }
    {
        self.list.get(i as usize).copied().unwrap_or(0)
    }
}

// ---- the fixed fields

fn write_opening(out: &mut [u8], at: usize)
    ensures { out.new ≡ placed out.old at (put_fields opening []) }
{
    let fields = [
        0u8, 0, 0, 5, 0, 0, 0, 0, 0, 0, 0, 1, 0, 0, 0, 0, 0, 0, 0, 5, 0, 0, 16,
    ];
    codec::copy_part(&fields, 0, 23, out, at);
}

fn write_before_vectors(out: &mut [u8], at: usize)
    ensures { out.new ≡ placed out.old at (put_fields before_vectors []) }
{
    let fields = [0u8, 0, 0, 24, 0, 0, 16, 0, 0, 24, 0, 0, 1, 0, 0, 0, 21];
    codec::copy_part(&fields, 0, 17, out, at);
}

fn write_before_ranges(out: &mut [u8], at: usize)
    ensures { out.new ≡ placed out.old at (put_fields before_ranges []) }
{
    let fields = [0u8, 0, 0, 23, 0, 0, 0, 1, 0, 0, 0, 22];
    codec::copy_part(&fields, 0, 12, out, at);
}

fn write_closing(out: &mut [u8], at: usize)
    ensures { out.new ≡ placed out.old at (put_fields closing []) }
{
    let fields = [0u8, 0, 0, 0, 0, 0, 0, 25, 1, 0, 0, 0, 0];
    codec::copy_part(&fields, 0, 13, out, at);
}

// ---- the replica map

// The id of a column.
fn write_id(out: &mut [u8], at: usize, ids: &[u64], c: u32)
    requires { at + 16 < 2 ^ 64 }
    ensures { Wrote out.old at (id_pieces ids.now (c ∷ [])) out.new (at + 16) }
{
    let first = 2 * (c as usize);
    codec::write::<8>(out, at, cells::word(ids, first));
    codec::write::<8>(out, at + 8, cells::word(ids, first + 1));
}

// The ids of columns; the place after.
fn write_ids(out: &mut [u8], at: usize, ids: &[u64], cols: Numbers) -> usize
    requires { at + 16 * cols.count < 2 ^ 64 }
    ensures { Wrote out.old at (id_pieces ids.now (listed cols.entry))
        out.new result }
{
    for i in 0..cols.count {
        write_id(out, at + 16 * (i as usize), ids, cols.at(i));
    }
    at + 16 * (cols.count as usize)
}

// The opening, the count and the ids.
fn write_map(out: &mut [u8], at: usize, ids: &[u64], cols: Numbers) -> usize
    ensures { Wrote out.old at (put_fields opening [] ∷ bytes 4 cols.entry.count
        ∷ id_pieces ids.now (listed cols.entry)) out.new result }
{
    if out.len() < at {
        return at;
    }
    write_opening(out, at);
    codec::write::<4>(out, at + 23, cols.count as u64);
    write_ids(out, at + 27, ids, cols)
}

// ---- the clock vectors

fn write_element(out: &mut [u8], at: usize, key: ReplicaKey, tick: u64)
    requires { at + 12 < 2 ^ 64 }
    ensures { Wrote out.old at (bytes 4 key.0 ∷ bytes 8 tick ∷ []) out.new (at + 12) }
{
    codec::write::<4>(out, at, key.0 as u64);
    codec::write::<8>(out, at + 4, tick);
}

// The element of a row in a column, if it has a tick there; the place after.
fn write_cell(out: &mut [u8], at: usize, t: &[u64], k: u32, c: u32, key: ReplicaKey) -> usize
    requires { at + 12 < 2 ^ 64 }
    ensures { Wrote out.old at (element_pieces (cell t.now k) key.0 (c ∷ []))
        out.new result × (result ≡ at + 12 * elements_of (cell t.now k c)) }
{
    let tick = cells::tick(t, k, c);
    if tick == 0 {
        return at;
    }
    write_element(out, at, key, tick);
    at + 12
}

// The elements of a row in columns; the place after.
fn write_elements(out: &mut [u8], at: usize, t: &[u64], k: u32, cols: Numbers) -> usize
    requires { at + 12 * cols.count < 2 ^ 64 }
    ensures { Wrote out.old at (element_pieces (cell t.now k) 0 (listed cols.entry))
        out.new result × (result ≡ at + 12 * length (elements_from (cell t.now k) 0 (listed cols.entry))) }
{
    let mut p = at;
    for key in 0..cols.count {
        p = write_cell(out, p, t, k, cols.at(key), ReplicaKey(key));
    }
    p
}

// A row as a clock vector: the count is written when the elements are; the place after.
fn write_vector(out: &mut [u8], at: usize, t: &[u64], k: u32, cols: Numbers) -> usize
    ensures { Wrote out.old at (vector_pieces (cell t.now k) (listed cols.entry))
        out.new result }
{
    if out.len() < at {
        return at;
    }
    let first = at + 8;
    codec::write::<4>(out, at, 1);
    let end = write_elements(out, first, t, k, cols);
    codec::write::<4>(out, at + 4, ((end - first) / 12) as u64);
    end
}

// The clock vectors of rows; the place after.
fn write_vectors(out: &mut [u8], at: usize, t: &[u64], cols: Numbers, firsts: Numbers) -> usize
    ensures { Wrote out.old at (vectors_pieces (cell t.now) (listed cols.entry) (listed firsts.entry)) out.new result }
{
    let mut p = at;
    for i in 0..firsts.count {
        p = write_vector(out, p, t, firsts.at(i), cols);
    }
    p
}

// The fields before the vectors, the count and the vectors.
fn write_vector_list(out: &mut [u8], at: usize, t: &[u64], cols: Numbers, firsts: Numbers) -> usize
    ensures { Wrote out.old at (put_fields before_vectors [] ∷ bytes 4 firsts.entry.count ∷ vectors_pieces (cell t.now)
        (listed cols.entry) (listed firsts.entry)) out.new result }
{
    if out.len() < at {
        return at;
    }
    write_before_vectors(out, at);
    codec::write::<4>(out, at + 17, firsts.count as u64);
    write_vectors(out, at + 21, t, cols, firsts)
}

// ---- the ranges

// The bound of a row, and the index of its vector.
fn write_range(out: &mut [u8], at: usize, bounds: &[u64], k: u32, index: VectorIndex)
    requires { at + 28 < 2 ^ 64 }
    ensures { Wrote out.old at (range_pieces bounds.now k index.0)
        out.new (at + 28) }
{
    let first = 3 * (k as usize);
    codec::write::<8>(out, at, cells::word(bounds, first));
    codec::write::<8>(out, at + 8, cells::word(bounds, first + 1));
    codec::write::<8>(out, at + 16, cells::word(bounds, first + 2));
    codec::write::<4>(out, at + 24, index.0 as u64);
}

// The range of a row, if it is not joined to the row before; the place after.
fn write_row(
    out: &mut [u8],
    at: usize,
    bounds: &[u64],
    k: u32,
    before: u64,
    index: VectorIndex,
) -> usize
    requires { at + 28 < 2 ^ 64 }
    ensures { Wrote out.old at (ranges_pieces bounds.now k before (index.0 ∷ []))
        out.new result × (result ≤ at + 28) }
{
    if index.0 as u64 == before {
        return at;
    }
    write_range(out, at, bounds, k, index);
    at + 28
}

// The ranges of rows by their numbers; the place after.
fn write_ranges(out: &mut [u8], at: usize, bounds: &[u64], numbers: Numbers) -> usize
    requires { at + 28 * numbers.count < 2 ^ 64 }
    ensures { Wrote out.old at (ranges_pieces bounds.now 1 (numbers.entry.count + 1) (listed numbers.entry))
        out.new result }
{
    let mut p = at;
    // not an `Option`: the promise (`ranges_pieces`) is for any numbers, and compares the first with the count of rows and 1
    let mut before = numbers.count as u64 + 1;
    for i in 0..numbers.count {
        let x = numbers.at(i);
        p = write_row(out, p, bounds, i + 1, before, VectorIndex(x));
        before = x as u64;
    }
    p
}

// The fields before the ranges, the count g and the ranges of rows.
fn write_range_list(out: &mut [u8], at: usize, bounds: &[u64], numbers: Numbers, g: u32) -> usize
    ensures { Wrote out.old at (put_fields before_ranges [] ∷ bytes 4 g
        ∷ ranges_pieces bounds.now 1 (numbers.entry.count + 1) (listed numbers.entry)) out.new result }
{
    if out.len() < at {
        return at;
    }
    write_before_ranges(out, at);
    codec::write::<4>(out, at + 12, g as u64);
    write_ranges(out, at + 16, bounds, numbers)
}

// ---- all of it

// Writes what was planned.
// more than eight parameters: the crate `preparing` calls it so
pub fn write(
    out: &mut [u8],
    at: usize,
    z: Sizes,
    ids: &[u64],
    bounds: &[u64],
    t: &[u64],
    n: u32,
    cols: &[u32],
    firsts: &[u32],
    numbers: &[u32],
)
    ensures { out.new ≡ laid out.old at (page_pieces z ids.now bounds.now t.now n
        cols.now firsts.now numbers.now) }
{
    let cols = Numbers {
        list: cols,
        count: z.replicas,
    };
    let firsts = Numbers {
        list: firsts,
        count: z.vectors,
    };
    let numbers = Numbers {
        list: numbers,
        count: n,
    };
    let vectors = write_map(out, at, ids, cols);
    let ranges = write_vector_list(out, vectors, t, cols, firsts);
    let end = write_range_list(out, ranges, bounds, numbers, z.ranges);
    write_closing(out, end);
}
