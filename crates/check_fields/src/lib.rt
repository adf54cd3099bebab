// The parts of a knowledge that are single fields: the runs of fixed fields with the counts after them, and a clock vector
// field by field. Every public function holds for every input of any length: what stands there, or the first fault.
//
// A run of fixed fields is compared in whole words; only where a word differs is it read field by field, which finds the
// first fault. Each constant has the bytes of the fields that it stands for.
#![tactic(auto)]

ghost use Rattle.std.specs.Prelude.{◌≡◌, ◌+◌, ◌*◌, ◌≤◌, length};
ghost use Rattle.layout.specs.Got.{got_of};
ghost use Rattle.layout.specs.Knowledge.{opening, before_vectors, before_elements, before_ranges, closing};
ghost use Rattle.layout.specs.Read.{◌▷◌, repeat, number, same, fields, limit, among, element, first_vector, vector};
ghost use Rattle.check_fields.specs.Method.{field_of, fields_of, got_under};

use codec::{Numbered, Refusal};
use layout::Read;

// the largest tick
const TICK: u64 = 9223372036854775807;

// the lengths of the fields before the vectors and before the ranges, each with its count, and of the closing fields
const BEFORE_VECTORS: usize = 21;

const BEFORE_RANGES: usize = 16;

const CLOSING: usize = 13;

// A fixed field of one, two or four bytes, with its value.
#[derive(Clone, Copy)]
enum Field {
    One(u8),
    Two(u16),
    Four(u32),
}

// the runs of fixed fields
const OPENING_FIELDS: [Field; 7] = [
    Field::Four(5),
    Field::Four(0),
    Field::Four(1),
    Field::Four(0),
    Field::Four(5),
    Field::One(0),
    Field::Two(16),
];

const VECTORS_FIELDS: [Field; 8] = [
    Field::Four(24),
    Field::One(0),
    Field::Two(16),
    Field::One(0),
    Field::Two(24),
    Field::One(0),
    Field::Two(1),
    Field::Four(21),
];

const RANGES_FIELDS: [Field; 3] = [Field::Four(23), Field::Four(1), Field::Four(22)];

const CLOSING_FIELDS: [Field; 4] = [
    Field::Four(0),
    Field::Four(25),
    Field::One(1),
    Field::Four(0),
];

// ---- one field after the other

// The number of N bytes at a place.
fn number<const N: usize>(s: &[u8], at: usize) -> Result<Read, Refusal>
    requires { N ≤ 8 }
    ensures { got_of result ≡ number s.now N 0 at }
{
    if codec::beyond(s.len(), at, N) {
        return Err(Refusal::EndsInside);
    }
    Ok(Read {
        number: codec::read::<N>(s, at) as usize,
        next: at + N,
    })
}

// The same where the number must be a fixed value.
fn fixed<const N: usize>(s: &[u8], value: usize, at: usize) -> Result<Read, Refusal>
    requires { N ≤ 8 }
    ensures { got_of result ≡ (number s.now N 0 at ▷ same value) }
{
    let x = number::<N>(s, at)?;
    if x.number != value {
        return Err(Refusal::FixedFieldDiffers);
    }
    Ok(x)
}

fn field_at(s: &[u8], f: Field, at: usize) -> Result<Read, Refusal>
    ensures { got_of result ≡ (number s.now (field_of f).size 0 at ▷ same (field_of f).value) }
{
    match f {
        Field::One(value) => fixed::<1>(s, value as usize, at),
        Field::Two(value) => fixed::<2>(s, value as usize, at),
        Field::Four(value) => fixed::<4>(s, value as usize, at),
    }
}

// A run of fixed fields. It and the next are kept out of where words are compared.
#[cold]
fn run_of_fields(s: &[u8], list: &[Field], start: usize) -> Result<Read, Refusal>
    ensures { got_of result ≡ fields s.now (fields_of list.now) 0 start }
{
    let mut x = Read {
        number: 0,
        next: start,
    };
    for f in list {
        x = field_at(s, *f, x.next)?;
    }
    Ok(x)
}

// A run of fixed fields, and the count after it. Inlined, so that its answer has a place on the stack only where it is asked for.
#[cold]
#[inline(always)]
fn run_and_count(s: &[u8], list: &[Field], start: usize) -> Result<Read, Refusal>
    ensures { got_of result ≡ (fields s.now (fields_of list.now) 0 start ▷ number s.now 4) }
{
    let x = run_of_fields(s, list, start)?;
    number::<4>(s, x.next)
}

// Holds a count against its limits.
pub fn in_limits<E: Numbered>(g: Result<Read, E>, lo: usize, hi: usize) -> Result<Read, E>
    ensures { got_under E.number_of result ≡ (got_under E.number_of g ▷ limit lo hi) }
{
    let x = g?;
    if x.number < lo || hi < x.number {
        return Err(E::from(Refusal::CountBeyondLimits));
    }
    Ok(x)
}

// ---- the runs of fixed fields, in whole words. A count that does not fit one byte is left to the reading field by field

// The opening, and the count r.
pub fn count_of_replicas(s: &[u8]) -> Result<Read, Refusal>
    ensures { got_of result ≡ (fields s.now opening 0 0 ▷ number s.now 4) }
{
    if s.len() < layout::IDS_PLACE {
        return run_and_count(s, &OPENING_FIELDS, 0);
    }
    let a = codec::read::<8>(s, 0); // 5 and 0
    let b = codec::read::<8>(s, 8); // 1 and 0
    let c = codec::read::<4>(s, 16); // 5
    let d = codec::read::<4>(s, 20); // 0, 16, and the count's first byte
    let e = codec::read::<2>(s, 24);
    if a != 21474836480 || b != 4294967296 || c != 5 || d != 4096 || e != 0 {
        return run_and_count(s, &OPENING_FIELDS, 0);
    }
    Ok(Read {
        number: s[26] as usize,
        next: layout::IDS_PLACE,
    })
}

// The fields before the vectors, and the count v.
pub fn count_of_vectors(s: &[u8], at: usize) -> Result<Read, Refusal>
    ensures { got_of result ≡ (fields s.now before_vectors 0 at ▷ number s.now 4) }
{
    if codec::beyond(s.len(), at, BEFORE_VECTORS) {
        return run_and_count(s, &VECTORS_FIELDS, at);
    }
    let w = &s[at..at + BEFORE_VECTORS];
    let a = codec::read::<8>(w, 0); // 24, 0, 16, 0
    let b = codec::read::<8>(w, 8); // 24, 0, 1, and the first three bytes of 21
    let c = codec::read::<4>(w, 16); // the last byte of 21, and the count's first three
    if a != 103079219200 || b != 6755399457832960 || c != 352321536 {
        return run_and_count(s, &VECTORS_FIELDS, at);
    }
    Ok(Read {
        number: w[20] as usize,
        next: at + BEFORE_VECTORS,
    })
}

// The fields before the ranges, and the count g.
pub fn count_of_ranges(s: &[u8], at: usize) -> Result<Read, Refusal>
    ensures { got_of result ≡ (fields s.now before_ranges 0 at ▷ number s.now 4) }
{
    if codec::beyond(s.len(), at, BEFORE_RANGES) {
        return run_and_count(s, &RANGES_FIELDS, at);
    }
    let w = &s[at..at + BEFORE_RANGES];
    let a = codec::read::<8>(w, 0); // 23 and 1
    let b = codec::read::<4>(w, 8); // 22
    let c = codec::read::<3>(w, 12);
    if a != 98784247809 || b != 22 || c != 0 {
        return run_and_count(s, &RANGES_FIELDS, at);
    }
    Ok(Read {
        number: w[15] as usize,
        next: at + BEFORE_RANGES,
    })
}

// The fields behind the last range. Inlined, so that its answer doesn't go through memory.
#[inline(always)]
pub fn closing_fields(s: &[u8], at: usize) -> Result<Read, Refusal>
    ensures { got_of result ≡ fields s.now closing 0 at }
{
    if codec::beyond(s.len(), at, CLOSING) {
        return run_of_fields(s, &CLOSING_FIELDS, at);
    }
    let w = &s[at..at + CLOSING];
    let a = codec::read::<8>(w, 0); // 0 and 25
    let b = codec::read::<4>(w, 9);
    if a != 25 || w[8] != 1 || b != 0 {
        return run_of_fields(s, &CLOSING_FIELDS, at);
    }
    Ok(Read {
        number: 0,
        next: at + CLOSING,
    })
}

// ---- clock vectors

// The field before the elements, and their count.
fn count_of_elements(s: &[u8], at: usize) -> Result<Read, Refusal>
    ensures { got_of result ≡ (fields s.now before_elements 0 at ▷ number s.now 4) }
{
    let x = fixed::<4>(s, 1, at)?;
    number::<4>(s, x.next)
}

pub fn first_vector(s: &[u8], at: usize) -> Result<Read, Refusal>
    ensures { got_of result ≡ first_vector s.now 0 at }
{
    let x = count_of_elements(s, at)?;
    if x.number != 0 {
        return Err(Refusal::FirstVectorNotEmpty);
    }
    Ok(x)
}

// Is the key one of the k keys from a place on.
fn seen_key(s: &[u8], start: usize, k: usize, key: u64) -> bool
    requires { start + 12 * k ≤ length s.now }
    ensures { result ≡ among s.now 4 12 start k key }
{
    for i in 0..k {
        if codec::read::<4>(s, start + 12 * i) == key {
            return true;
        }
    }
    false
}

// The element at a place, with k elements before it from start on.
fn element_at(s: &[u8], r: usize, start: usize, k: usize, at: usize) -> Result<Read, Refusal>
    requires { (start + 12 * k ≤ length s.now) × (at ≤ length s.now) }
    ensures { got_of result ≡ element s.now r start k at }
{
    let left = s.len() - at;
    if left < 4 {
        return Err(Refusal::EndsInside);
    }
    let key = codec::read::<4>(s, at);
    if r <= key as usize || seen_key(s, start, k, key) {
        return Err(Refusal::WrongKey);
    }
    if left < 12 {
        return Err(Refusal::EndsInside);
    }
    if TICK < codec::read::<8>(s, at + 4) {
        return Err(Refusal::TickTooLarge);
    }
    Ok(Read {
        number: k + 1,
        next: at + 12,
    })
}

// The n elements of a clock vector.
fn elements(s: &[u8], r: usize, n: usize, start: usize) -> Result<Read, Refusal>
    requires { start ≤ length s.now }
    ensures { got_of result ≡ repeat (element s.now r start) n 0 start }
{
    let mut x = Read {
        number: 0,
        next: start,
    };
    for k in 0..n {
        x = element_at(s, r, start, k, x.next)?;
    }
    Ok(x)
}

// A clock vector of a knowledge of r replicas: the count of its elements.
pub fn vector_by_fields(s: &[u8], r: usize, at: usize) -> Result<Read, Refusal>
    ensures { got_of result ≡ vector s.now r 0 at }
{
    let n = in_limits(count_of_elements(s, at), 0, r)?;
    elements(s, r, n.number, n.next)
}
