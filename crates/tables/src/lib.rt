// Tables of words, from which normal forms are written: their sizes. No function stands here.
#![tactic(auto)]

// a row has a cell for each replica of two knowledges
pub const STRIDE: usize = 2 * (layout::LARGEST_REPLICAS as usize);

// row 0, which is empty, and one for each range of two knowledges, and two more
pub const ROWS: usize = 2 * (layout::LARGEST_RANGES as usize) + 2;

// What is to be written: how many replicas, clock vectors, elements of all vectors, and ranges.
#[derive(Clone, Copy)]
pub struct Sizes {
    pub replicas: u32,
    pub vectors: u32,
    pub elements: u32,
    pub ranges: u32,
}
