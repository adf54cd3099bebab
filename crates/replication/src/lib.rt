// What the calls on stores and batches that write no bytes find. No function stands here: the crate holds the meaning of
// records, stores, batches and calls, and the theorem over whole lists of calls.
#![tactic(auto)]

// Which of the bytes given to a call.
#[derive(Clone, Copy, Debug, PartialEq, Eq)]
pub enum Side {
    Store,
    Batch,
}

// A part of the bytes given to a call: where it begins and how long it is.
#[derive(Clone, Copy)]
pub struct Location {
    pub side: Side,
    pub at: usize,
    pub length: usize,
}

// What coverage counts: the records whose change version the knowledge contains, the records in all, and 1000 times their ratio.
#[derive(Clone, Copy)]
pub struct Counted {
    pub contained: usize,
    pub all: usize,
    pub thousandths: usize,
}
