// Records asked of a knowledge: does it contain the change version of the record at a place.
//
// Every public function is total and goes by places: s has the records, and k, with r replicas, is the knowledge. For a valid record,
// bytes that the check accepts and a cursor that was moved on to the record's item, the answer is that of containing.
#![tactic(auto)]

ghost use Rattle.std.specs.Prelude.{◌≡◌};
ghost use Rattle.codec.specs.Words.{words2};
ghost use Rattle.records_versions.specs.Method.{moved_to, tick_in, change_in};

use codec::Replica;
use lookup::Cursor;

// The cursor, moved on to the item of the record at a place. Items must rise from call to call.
pub fn move_to(s: &[u8], at: usize, k: &[u8], r: u32, c: Cursor) -> Cursor
    ensures { result ≡ moved_to s.now at k.now r c }
{
    lookup::advance(k, r, c, records::item_of(s, at))
}

// Is a tick at most the one that the clock vector at a place has for a replica. The replica's words come one by one: this is asked for
// each record, and a struct would go through memory. The search takes the slice anew, so that it need not be copied in memory.
fn tick_in(k: &[u8], r: u32, vector: usize, high: u64, low: u64, tick: u64) -> bool
    ensures { result ≡ tick_in k.now r vector (words2 high low) tick }
{
    let key = lookup::key_of(k, r, Replica { high, low });
    tick <= lookup::tick_at(&k[..], vector, key)
}

// Is the record's change version in the clock vector at a place.
pub fn change_in(s: &[u8], at: usize, k: &[u8], r: u32, vector: usize) -> bool
    ensures { result ≡ change_in s.now at k.now r vector }
{
    let p = records::change_replica(s, at);
    let t = records::change_tick(s, at);
    tick_in(&k[..], r, vector, p.high, p.low, t)
}
