// What the filling of a table of known ticks comes to, step by step: its columns, its rows, its cells and whole tables. The definitions
// follow the steps of the code; the laws say that from bytes that the check accepts, with room, a table samples the ticks of its
// operation. No function stands here.
#![tactic(auto)]

use codec::Item;

// The next bound of two lists, and how many of the first list and of the second are passed with it.
#[derive(Clone, Copy)]
pub struct Turn {
    pub bound: Item,
    pub first: u32,
    pub second: u32,
}

// How many columns and rows of a table are filled.
#[derive(Clone, Copy)]
pub struct Filled {
    pub columns: u32,
    pub rows: u32,
}
