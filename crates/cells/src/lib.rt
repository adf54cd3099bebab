// The words and the ticks of a table are read; what is not there is 0.
#![tactic(auto)]

ghost use Rattle.std.specs.Prelude.{◌≡◌, slice_index};
ghost use Rattle.tables.specs.MethodWords.{cell};

use tables::STRIDE;

// The word at a place; 0 where there is none.
pub fn word(l: &[u64], i: usize) -> u64
    ensures { result ≡ slice_index l.now i }
{
    l.get(i).copied().unwrap_or(0)
}

// The tick in a row and a column.
pub fn tick(t: &[u64], k: u32, c: u32) -> u64
    ensures { result ≡ cell t.now k c }
{
    word(t, STRIDE * (k as usize) + (c as usize))
}
