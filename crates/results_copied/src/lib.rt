// Results that are a copy of bytes that are there: all of them, or all but the ticks of one replica.
//
// Every public function is total, and nothing but the buffer can change.
#![tactic(auto)]

ghost use Rattle.std.specs.Prelude.{◌≡◌, ◌+◌, ◌^◌, ◌≤◌};
ghost use Rattle.codec.specs.Answer.{answer_of};
ghost use Rattle.codec.specs.Reply.{gives};
ghost use Rattle.codec.specs.MethodEnded.{Ended, end_of};
ghost use Rattle.layout.specs.Decode.{elements_at};
ghost use Rattle.lookup.specs.Method.{There};
ghost use Rattle.results_copied.specs.MethodRaised.{first_written, vector_written, vectors_written, copied_end};

use codec::{Refusal, Replica};
use layout::ReplicaKey;
use lookup::View;

// Copies bytes to the front of a buffer; refused where it is too short.
pub fn copy_whole(s: &[u8], out: &mut [u8]) -> Result<usize, Refusal>
    ensures { Ended (gives s.now) out.old out.new (answer_of result) }
{
    let n = s.len();
    if out.len() < n {
        return Err(Refusal::BufferTooShort);
    }
    codec::copy_part(s, 0, n, out, 0);
    Ok(n)
}

// ---- a tick raised in a copy
//
// The places are looked for in the bytes themselves, so that the copy is only written.

// Writes a tick over that of the first of the n elements of a vector that has the key.
fn write_first(s: &[u8], vector: usize, n: usize, key: ReplicaKey, tick: u64, out: &mut [u8])
    requires { There s.now vector n }
    ensures { out.new
        ≡ first_written key.0 tick out.old (vector + 8) (elements_at s.now n (vector + 8)) }
{
    for i in 0..n {
        let at = vector + 8 + 12 * i;
        if leaves::first::<4>(&s[at..at + 4]) == u64::from(key.0) {
            codec::write::<8>(out, at + 4, tick);
            return;
        }
    }
}

// The same, but the element whose index is the key is looked at first, as `lookup::tick_at` does.
fn write_tick(s: &[u8], vector: usize, n: usize, key: ReplicaKey, tick: u64, out: &mut [u8])
    requires { There s.now vector n }
    ensures { out.new ≡ vector_written key.0 tick s.now out.old vector }
{
    let guess = key.0 as usize;
    if guess < n {
        let place = vector + 8 + 12 * guess;
        if leaves::first::<4>(&s[place..place + 4]) == u64::from(key.0) {
            codec::write::<8>(out, place + 4, tick);
            return;
        }
    }
    write_first(s, vector, n, key, tick, out);
}

// The same in n vectors from a place on.
fn write_ticks(s: &[u8], n: u32, start: usize, key: ReplicaKey, tick: u64, out: &mut [u8])
    requires { start ≤ 2 ^ 40 }
    ensures { out.new ≡ vectors_written key.0 tick s.now out.old n start }
{
    let mut at = start;
    for _ in 0..n {
        let m = lookup::elements_at(s, at);
        write_tick(s, at, m, key, tick, out);
        at += 8 + 12 * m;
    }
}

// Copies a knowledge to the front of a buffer, with a tick written over that of a replica in each clock vector that has one; refused where
// the buffer is too short.
pub fn copy_raised(
    s: &[u8],
    v: View,
    p: Replica,
    tick: u64,
    out: &mut [u8],
) -> Result<usize, Refusal>
    ensures { end_of out.new (answer_of result) ≡ copied_end s.now v p tick out.old }
{
    let n = s.len();
    if out.len() < n {
        return Err(Refusal::BufferTooShort);
    }
    codec::copy_part(s, 0, n, out, 0);
    let key = lookup::key_of(s, v.r, p);
    let start = layout::VECTORS_PLACE + 16 * (v.r as usize);
    let vectors = codec::read::<4>(s, start - 4) as u32;
    write_ticks(s, vectors, start, key, tick, out);
    Ok(n)
}
