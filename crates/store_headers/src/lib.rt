// The headers of stores and batches.
//
// Every public function is total: a header that has no room is not written at all.
#![tactic(auto)]

ghost use Rattle.std.specs.Prelude.{◌≡◌, ◌+◌, ◌^◌, ◌<◌};
ghost use Rattle.codec.specs.Ids.{item_of, replica_of};
ghost use Rattle.codec.specs.MethodWritten.{Wrote};
ghost use Rattle.codec.specs.Part.{placed};
ghost use Rattle.store_headers.specs.MethodHeaders.{store_head, batch_head, put_both};

use codec::{Replica, Span};

// the length of a store's header, and of a batch's
pub const STORE: usize = 25;

pub const BATCH: usize = 61;

// Two lengths or counts, from a place on.
fn write_sizes(out: &mut [u8], at: usize, x: usize, y: usize)
    requires { at + 8 < 2 ^ 64 }
    ensures { Wrote out.old at (put_both 4 x y) out.new (at + 8) }
{
    codec::write::<4>(out, at, x as u64);
    codec::write::<4>(out, at + 4, y as u64);
}

// A first and a last id, from a place on.
fn write_span(out: &mut [u8], at: usize, span: Span)
    requires { at + 48 < 2 ^ 64 }
    ensures { Wrote out.old at (put_both 24 (item_of span.first) (item_of span.last)) out.new (at + 48) }
{
    leaves::write_item(out, at, span.first);
    leaves::write_item(out, at + 24, span.last);
}

// The header of a store: its own id, the length of its knowledge, its count of records.
pub fn write_store_header(out: &mut [u8], own: Replica, knowledge: usize, records: usize)
    ensures { out.new ≡ placed out.old 0 (store_head (replica_of own) knowledge records) }
{
    if out.len() < STORE {
        return;
    }
    codec::write::<1>(out, 0, 3);
    leaves::write_replica(out, 1, own);
    write_sizes(out, 17, knowledge, records);
}

// The header of a batch: its first and last id, the lengths of needed and learned, its count of records.
pub fn write_batch_header(out: &mut [u8], span: Span, needed: usize, learned: usize, records: usize)
    ensures { out.new ≡ placed out.old 0
        (batch_head (item_of span.first) (item_of span.last) needed learned records) }
{
    if out.len() < BATCH {
        return;
    }
    codec::write::<1>(out, 0, 4);
    write_span(out, 1, span);
    write_sizes(out, 49, needed, learned);
    codec::write::<4>(out, 57, records as u64);
}
