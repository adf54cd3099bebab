// Numbers at the front of a part of a slice: the reads for loops, `first::<8>(&s[at..at + 8])`. And ids as bytes: the comparisons
// and the writes that headers and records share.
//
// Every public function is total: a part that is too short reads as 0. Where the part's length is written at the call, as
// above, that the bytes are there is shown at the call, and the test of the length is gone once the call is inlined. What has no room
// is not written at all.
#![tactic(auto)]

ghost use Rattle.std.specs.Prelude.{◌≡◌, ◌^◌, ◌<◌, min, nat_eq, nat_lt};
ghost use Rattle.codec.specs.Total.{read_at};
ghost use Rattle.codec.specs.Ids.{item_of, replica_of};
ghost use Rattle.codec.specs.Part.{placed, bytes};

use codec::{Item, Replica};

// The number in the first N bytes of a part; 0 where the part is shorter. No more than eight bytes are read.
#[inline(always)]
pub fn first<const N: usize>(w: &[u8]) -> u64
    ensures { (result ≡ read_at w.now (min N 8) 0) × (result < 256 ^ min N 8) }
{
    codec::read::<N>(w, 0)
}

// Is an item below the one in the first 24 bytes of a part; a part that is shorter is 0.
#[inline(always)]
pub fn below(w: &[u8], i: Item) -> bool
    ensures { result ≡ nat_lt (item_of i) (read_at w.now 24 0) }
{
    w.len() >= 24 && i < Item::from_bytes(w)
}

// Is a replica the one in the first 16 bytes of a part; a part that is shorter is 0.
#[inline(always)]
pub fn is_replica(w: &[u8], p: Replica) -> bool
    ensures { result ≡ nat_eq (read_at w.now 16 0) (replica_of p) }
{
    if w.len() < 16 {
        return Replica { high: 0, low: 0 } == p;
    }
    // word by word: most ids differ in the first one
    if first::<8>(w) != p.high {
        return false;
    }
    first::<8>(&w[8..8 + 8]) == p.low
}

// A replica id, and an item id, from `at` on, where there is room for all of it.
pub fn write_replica(out: &mut [u8], at: usize, p: Replica)
    ensures { out.new ≡ placed out.old at (bytes 16 (replica_of p)) }
{
    if codec::beyond(out.len(), at, 16) {
        return;
    }
    codec::write::<8>(out, at, p.high);
    codec::write::<8>(out, at + 8, p.low);
}

pub fn write_item(out: &mut [u8], at: usize, i: Item)
    ensures { out.new ≡ placed out.old at (bytes 24 (item_of i)) }
{
    if codec::beyond(out.len(), at, 24) {
        return;
    }
    codec::write::<8>(out, at, i.high);
    codec::write::<8>(out, at + 8, i.middle);
    codec::write::<8>(out, at + 16, i.low);
}
