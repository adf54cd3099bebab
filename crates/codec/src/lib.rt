// Numbers and ids as bytes, copying, and the reasons of refusals.
//
// Every public function is total: a number of which a byte is missing is read as 0, and what has no room is not written at all.
#![tactic(auto)]

ghost use Rattle.std.proofs.Common.{ap};
ghost use Rattle.std.specs.Prelude.{ℕ, ◌≡◌, ◌+◌, ◌^◌, ◌<◌, ◌≤◌, min, max, true, false, length};
ghost use Rattle.codec.specs.Number.{be_at};
ghost use Rattle.codec.specs.Total.{read_at, clamp};
ghost use Rattle.codec.specs.Ids.{InWords, item_read, replica_read};
ghost use Rattle.codec.specs.Part.{placed, part, bytes};
ghost use Rattle.codec.specs.Refusal.{number};

// An item id, as words of 64 bits, the highest first: ids are compared in this order.
#[derive(Clone, Copy, Debug, PartialEq, Eq, PartialOrd, Ord)]
pub struct Item {
    pub high: u64,
    pub middle: u64,
    pub low: u64, // the last eight of the 24 bytes
}

// A replica id likewise.
#[derive(Clone, Copy, Debug, PartialEq, Eq, PartialOrd, Ord)]
pub struct Replica {
    pub high: u64,
    pub low: u64,
}

// The items from a first to a last, both included.
#[derive(Clone, Copy)]
pub struct Span {
    pub first: Item,
    pub last: Item,
}

// Why a call is refused. The numbers are document 01's.
#[derive(Clone, Copy, Debug, PartialEq, Eq)]
pub enum Refusal {
    // in the bytes of a knowledge
    EndsInside = 1,
    FixedFieldDiffers = 2,
    CountBeyondLimits = 3,
    FirstVectorNotEmpty = 4,
    ReplicaTwice = 5,
    WrongKey = 6,
    TickTooLarge = 7,
    BoundNotAbove = 8,
    WrongIndex = 9,
    BytesLeftOver = 10,
    // in the result
    TooManyReplicas = 11,
    TooManyRanges = 12,
    TooManyRecords = 13,
    BufferTooShort = 14,
    // in what is given beside it
    StoreNotValid = 15,
    BatchNotValid = 16,
    WrongIds = 17,
    NotCovered = 18,
    NoLiveItem = 19,
    TicksExhausted = 20,
}

impl From<Refusal> for u32 {
    ghost from_gives = { λ e n. n ≡ number e };

    #[tactic(auto, unfolding(crate::specs::Refusal::number))]
    fn from(e: Refusal) -> u32 {
        e as u32
    }
}

// What a function may hand on as a refusal: a `Refusal`, or a number alone, whichever it is.
pub trait Numbered: From<Refusal> + Into<u32> + Copy {
    ghost number_of: { Self → ℕ };

    // a refusal keeps its number
    ghost of_refusal: { (r : _) (e : Self) → Self.from_gives r e → number_of e ≡ number r };

    // and the number is what it says
    ghost as_number: { (e : Self) (n : ℕ) → Self.converts e n → n ≡ number_of e };
}

impl Numbered for Refusal {
    ghost number_of = { number };

    ghost of_refusal = { λ r e g. ap number g };

    ghost as_number = { λ e n g. g };
}

impl Numbered for u32 {
    ghost number_of = { λ n. n };

    ghost of_refusal = { λ r e g. g };

    ghost as_number = { λ e n g. g };
}

// Do n bytes from `at` on go past the end of a slice.
pub fn beyond(end: usize, at: usize, n: usize) -> bool
    ensures { (result ≡ true → end < at + n) × (result ≡ false → at + n ≤ end) }
{
    end < n || end - n < at
}

// The number in the four bytes from `at` on, all there. A sum and not `big_endian`: this is one load and an exchange of bytes also where
// only a part of the number is asked for, as whether it is 0.
fn four(s: &[u8], at: usize) -> u64
    requires { at + 4 ≤ length s.now }
    ensures { (result ≡ be_at s.now 4 at) × (result < 2 ^ 32) }
{
    u64::from(s[at]) * 16777216
        + u64::from(s[at + 1]) * 65536
        + u64::from(s[at + 2]) * 256
        + u64::from(s[at + 3])
}

// The number that at most eight bytes make, the highest first.
fn big_endian(w: &[u8]) -> u64
    requires { length w.now ≤ 8 }
    ensures { (result ≡ be_at w.now (length w.now) 0) × (result < 256 ^ length w.now) }
{
    let mut x: u64 = 0;
    for b in w {
        x = x * 256 + u64::from(*b);
    }
    x
}

// The big-endian number in the N bytes from `at` on, 0 where one of them is missing. No more than eight bytes are read.
#[inline(always)]
pub fn read<const N: usize>(s: &[u8], at: usize) -> u64
    ensures value { result ≡ read_at s.now (min N 8) at }
    ensures upper_bound { result < 256 ^ min N 8 }
{
    let n = N.min(8);
    if beyond(s.len(), at, n) {
        return 0;
    }
    match n {
        8 => four(s, at) * 4294967296 + four(s, at + 4),
        4 => four(s, at),
        _ => big_endian(&s[at..at + n]),
    }
}

// The N lowest bytes of x, big-endian, from `at` on, where there is room for all of them. No more than eight bytes are written.
pub fn write<const N: usize>(out: &mut [u8], at: usize, x: u64)
    ensures { out.new ≡ placed out.old at (bytes (min N 8) x) }
{
    let n = N.min(8);
    if beyond(out.len(), at, n) {
        return;
    }
    for i in 0..n {
        out[at + i] = ((x >> (8 * (n - 1 - i))) % 256) as u8;
    }
}

// The n bytes of `src` from a place on, into `dst`: nothing where `src` has fewer there or `dst` has no room.
pub fn copy_part(src: &[u8], from: usize, n: usize, dst: &mut [u8], at: usize)
    ensures { dst.new ≡ placed dst.old at (part src.now from n) }
{
    if beyond(src.len(), from, n) || beyond(dst.len(), at, n) {
        return;
    }
    // a loop: `copy_from_slice` would need the C library's memmove
    for k in 0..n {
        dst[at + k] = src[from + k];
    }
}

impl Item {
    // The id in the first 24 bytes; a word that is not all there is 0.
    #[inline(always)]
    pub fn from_bytes(id: &[u8]) -> Item
        ensures value { result ≡ item_read id.now }
        ensures in_words { InWords result }
    {
        Item {
            high: read::<8>(id, 0),
            middle: read::<8>(id, 8),
            low: read::<8>(id, 16),
        }
    }
}

impl Replica {
    // The id in the first 16 bytes; a word that is not all there is 0.
    #[inline(always)]
    pub fn from_bytes(id: &[u8]) -> Replica
        ensures value { result ≡ replica_read id.now }
        ensures high_bound { (result.high < 2 ^ 64) × (result.low < 2 ^ 64) }
    {
        Replica {
            high: read::<8>(id, 0),
            low: read::<8>(id, 8),
        }
    }
}

// The larger of two ticks with no branch on either: from their difference modulo 2^64. It is at most a exactly where b is; this
// comparison is taken as a number, 0 or 1, that the difference is multiplied by. Right for every number of 64 bits, for all ticks from 0
// to 2^63 − 1 in particular. `docs/DECISIONS.md` says why it is written so.
pub fn max(a: u64, b: u64) -> u64
    ensures { result ≡ max a b }
{
    let d = a.wrapping_sub(b);
    b + d * ((d <= a) as u64)
}

// A limit clamped to 1 to a largest.
pub fn clamp(n: u32, largest: u32) -> u32
    ensures { result ≡ clamp n largest }
{
    if n < 1 { 1 } else { n.min(largest) }
}
