// The records of a table that a batch carries: those from a first item to a last one whose change version a knowledge lacks.
//
// A table is what a walker goes through from a place of some bytes on. One pass decides: it stores the places of the records, and
// counts them and their bytes; `records_join::copy_picked` copies them, since a place is also an address. The public function is total
// and goes by places; for a table that rises and bytes that the check accepts the records are those that a make carries.
#![tactic(auto)]

ghost use Rattle.std.specs.Prelude.{◌≡◌, [], length, MatchOption};
ghost use Rattle.codec.specs.Ids.{item_of};
ghost use Rattle.replication.specs.Queries.{places};
ghost use Rattle.records_join.specs.MethodJoin.{size_from, fronted};
ghost use Rattle.records_select.specs.MethodSelect.{from_first, lacking_at, select_places, Picks};

use codec::{Item, Span};
use lookup::{Cursor, View};
use records_join::Extent;

// The next record that is selected: its place, its length, and the cursor at its item.
#[derive(Clone, Copy)]
pub struct Pick {
    pub at: usize,
    pub size: usize,
    pub cursor: Cursor,
}

// The place of the first record whose item is not below the given one.
fn from_first(s: &[u8], at: usize, first: Item) -> usize
    ensures { places s.now result ≡ from_first s.now (item_of first) (places s.now at) }
{
    let mut p = at;
    // a loop: the place moves by the length that is read
    loop {
        let n = records::length_at(s, p);
        if n == 0 {
            return p;
        }
        if records::item_of(s, p) < first {
            p += n;
        } else {
            return p;
        }
    }
}

// The next record, up to the last item, whose change version the knowledge k lacks.
fn next_lacking(s: &[u8], from: usize, k: &[u8], r: u32, start: Cursor, last: Item) -> Option<Pick>
    ensures { MatchOption result (lacking_at s.now from k.now r start (item_of last) ≡ [])
        (λ x. Picks s.now from k.now r start (item_of last) x) }
{
    let mut at = from;
    let mut cursor = start;
    // a loop: the place moves by the length that is read
    loop {
        let size = records::length_at(s, at);
        if size == 0 {
            return None;
        }
        let i = records::item_of(s, at);
        if last < i {
            return None;
        }
        cursor = lookup::advance(k, r, cursor, i);
        if !records_versions::change_in(s, at, k, r, cursor.vector) {
            return Some(Pick { at, size, cursor });
        }
        at += size;
    }
}

// The places of all of them, into the front of `picks`, as many as it has room for; how many there are, and how many bytes they
// have.
fn all_lacking(s: &[u8], at: usize, k: &[u8], v: View, last: Item, picks: &mut [usize]) -> Extent
    ensures count_value { (result.count ≡ length (lacking_at s.now at k.now v.r v.start (item_of last)))
        × (result.length
        ≡ size_from s.now s.now (lacking_at s.now at k.now v.r v.start (item_of last))) }
    ensures picks_after { picks.new
        ≡ fronted picks.old (lacking_at s.now at k.now v.r v.start (item_of last)) }
{
    let r = v.r;
    let mut count: usize = 0;
    let mut size: usize = 0;
    let mut p = at;
    let mut c = v.start;
    while let Some(x) = next_lacking(s, p, k, r, c, last) {
        records_join::put(picks, count, x.at);
        count += 1;
        size += x.size;
        p = x.at + x.size;
        c = x.cursor;
    }
    Extent {
        count,
        length: size,
    }
}

// The places of the records from the first item of a span to its last whose change version the opened knowledge k lacks, into
// the front of `picks`, as many as it has room for; how many records there are, and how many bytes they have.
pub fn select(s: &[u8], at: usize, k: &[u8], v: View, span: Span, picks: &mut [usize]) -> Extent
    ensures count_value { (result.count
        ≡ length (select_places s.now at k.now v.r v.start (item_of span.first) (item_of span.last)))
        × (result.length
        ≡ size_from s.now s.now
        (select_places s.now at k.now v.r v.start (item_of span.first) (item_of span.last))) }
    ensures picks_after { picks.new
        ≡ fronted picks.old
        (select_places s.now at k.now v.r v.start (item_of span.first) (item_of span.last)) }
{
    let p = from_first(s, at, span.first);
    all_lacking(s, p, k, v, span.last, picks)
}
