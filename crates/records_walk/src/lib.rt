// A walker over a lent table: it hands out records in turn and remembers its place.
//
// The work is done by functions of a slice and a number; the struct holds just these two. What it hands out is a part of the
// lent table, uncopied, and the empty part where no whole record of a known kind follows.
#![tactic(auto)]

ghost use Rattle.std.specs.Prelude.{◌≡◌};
ghost use Rattle.replication.specs.Queries.{to_give};
ghost use Rattle.records_walk.specs.Given.{PartOf, still_gives, later_parts};
ghost use Rattle.records_walk.specs.Method.{after_at};

#[derive(Drop)]
pub struct Walker<'a> {
    table: &'a [u8],
    at: usize,
}

// The whole record at a place, as a part of the table; the empty part where none stands there.
pub fn part_at<'a>(table: &'a [u8], at: usize) -> &'a [u8]
    ensures { PartOf table.entry at result }
{
    let n = records::length_at(table, at);
    if n == 0 {
        return &table[0..0];
    }
    &table[at..at + n]
}

// The place behind the whole record at a place; the place itself where none stands there.
pub fn after_at(table: &[u8], at: usize) -> usize
    ensures { (to_give table.now result ≡ later_parts (to_give table.now at))
        × (result ≡ after_at table.now at) }
{
    let n = records::length_at(table, at);
    at + n
}

// A walker over a table, from a place on.
pub fn walk<'a>(table: &'a [u8], at: usize) -> Walker<'a>
    ensures { (result.table ≡ table.entry) × (result.at ≡ at) }
{
    Walker { table, at }
}

// The record at the walker's place, which goes on behind it; the empty part, and the walker stays, where none stands there.
pub fn next<'s, 'a>(w: &'s mut Walker<'a>) -> &'a [u8]
    ensures { (PartOf w.old.table w.old.at result)
        × (still_gives w.new ≡ later_parts (still_gives w.old))
        × (w.new.table ≡ w.old.table)
        × (w.new.at ≡ after_at w.old.table.now w.old.at) }
{
    let table = w.table;
    let at = w.at;
    let part = part_at(table, at);
    w.at = after_at(table, at);
    part
}
